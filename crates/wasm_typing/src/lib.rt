//! The typing of the code of one body (WebAssembly Core 2.0, section 3.3).
#![tactic(auto)]

mod body;
mod branch;
mod effect;
mod fault;
mod indexed;
mod locals;
mod memory;
mod plain;
mod scope;
mod stacks;

pub use body::check_body;
pub use fault::TypingFault;
pub use scope::Env;
