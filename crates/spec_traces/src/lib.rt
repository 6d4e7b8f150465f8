//! The text of one run, and what it is that a run is that of a trace.
#![tactic(auto)]

ghost use Rattle.spec_traces.specs.Laws.{OneTrace};

mod line;
mod trace;

pub use dyl_print;
pub use line::{CallHead, Line};
pub use spec_execution;
pub use spec_hosts;
pub use trace::{Trace, TraceCall, TraceEnd, TraceFault};

/// One text is that of one trace.
pub fn texts_are_of_one_trace()
    ensures { OneTrace }
{}
