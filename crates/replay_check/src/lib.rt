//! Traces of runs: making the trace of one, and checking that a trace is that of one.
#![tactic(auto)]

mod answers;
mod check;
mod copies;
mod ends;
mod program;
mod ranges;
mod record;
mod replay;

pub use check::{check_trace, runs_agree_up_to_one_call, runs_have_one_trace};
pub use program::Program;
pub use record::trace_of;
pub use spec_traces::{Trace, TraceCall, TraceEnd, TraceFault};
