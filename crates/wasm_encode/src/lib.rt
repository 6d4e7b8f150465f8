//! Writes modules in the binary format (WebAssembly Core 2.0, chapter 5), and reads again what was written.
#![tactic(auto)]

mod code;
mod codec;
mod fault;
mod import;
mod instr;
mod laws;
mod module;
mod part;
mod section;
mod segment;
mod types;

pub use codec::round_trip;
pub use fault::EncodeFault;
pub use laws::{light_modules_fit, one_shortest_module, weights_bound_lengths};
pub use module::encode;
