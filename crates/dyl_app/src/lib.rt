//! All that the program does: words or an order to an outcome, over files, an input, outputs, a clock, a host table and a picker of turns.
#![tactic(auto)]

mod ending;
mod service;

pub use dyl_commands::tell;
pub use dyl_front::{Order, Outcome, UsageKind, status};
pub use ending::{serve_to_end, tell_to_end};
pub use service::{perform, serve};
pub use slice_exec::{BoardRan, Pick, Picker};
pub use spec_hosts::{Ran, RunEnd};
pub use spec_linking::spec_execution::SingleFault;
pub use spec_linking::{LinkFault, SetFault};
pub use spec_merging::MergeFault;
pub use spec_snapshots::SnapFault;
