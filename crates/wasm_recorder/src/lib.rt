//! What is recorded of a run: its steps, and the answers of its host.
#![tactic(auto)]

mod bare;
mod recorder;

pub use bare::Bare;
pub use recorder::Recorder;
