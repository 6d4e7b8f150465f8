//! The closed set of a main module, gathered from files (DynamicLinking.md of the WebAssembly tool conventions).
#![tactic(auto)]

mod find;
mod gathered;
mod laws;
mod load;
mod names;
mod next;
mod paths;
mod progress;
mod set;
mod startup;
mod step;

pub use gathered::gather;
pub use laws::files_give_one_answer;
pub use paths::name_of;
pub use set::{ClosedSet, Member, SetOptions};
pub use spec_linking::SetFault;
