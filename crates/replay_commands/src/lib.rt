//! The commands `trace` and `replay`: a run whose trace is written, and a trace that is checked against the run.
#![tactic(auto)]

mod laws;
mod replay;
mod trace;

pub use laws::traces_are_replayed;
pub use replay::replay_main;
pub use trace::trace_main;
