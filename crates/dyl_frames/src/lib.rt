//! The run of units that a loader opens: code of a machine, and frames of the loader between its activations.
#![tactic(auto)]

mod frames;

pub use frames::{Core, is_place};
pub use spec_loading::{After, Phase, Task};
pub use wasm_machine::{Answer, Asked, Done, Event, Standing};
