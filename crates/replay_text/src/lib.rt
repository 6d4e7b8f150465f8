//! The text of a trace: printed and read.
#![tactic(auto)]

mod bytes;
mod line;
mod names;
mod numbers;
mod print;
mod read;
mod stage;
mod unread;
mod words;

pub use print::print_trace;
pub use read::read_trace;
pub use spec_traces::{Trace, TraceCall, TraceEnd, TraceFault};
