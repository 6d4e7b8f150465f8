//! The run of one ordinary module, which imports host functions alone (WebAssembly Core 2.0, sections 4.5.4 and 4.5.5).
#![tactic(auto)]

mod bare_run;
mod hosts;
mod load;
mod module_run;
mod single;

pub use module_run::ModuleRun;
pub use single::Single;
pub use spec_safety::spec_execution::SingleFault;
pub use wasm_machine::{Answer, Asked, Event};
