//! The decoder of the WebAssembly binary format.
#![tactic(auto)]

mod body;
mod counts;
mod fault;
mod file;
mod section;

pub use file::decode;
pub use spec_reading::spec_binary::DecodeFault;
