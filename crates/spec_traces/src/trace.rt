// A trace: what is told of one run.
use spec_execution::SingleFault;
use spec_hosts::wasm_form::{Answer, List, Text, Trap};

/// How a run ended: by itself, or by a limit.
#[derive(Clone, Copy, Debug, PartialEq, Eq)]
pub enum TraceEnd {
    Return,
    Exit(u32),
    Trap(Trap),
    /// So many steps were made as were allowed.
    StepLimit,
    /// The next step would make the 10,001st activation, or bring the room of all activations above 4,194,304 values.
    DepthLimit,
    /// A host call is waiting, and 1,048,576 answers are recorded, or these have written 268,435,456 bytes or more.
    HostCallLimit,
}

/// A host call: after how many steps it is waited for, the function's module and name, the arguments in order, and the answer.
#[derive(Drop)]
pub struct TraceCall {
    pub steps: u64,
    pub module: Text,
    pub name: Text,
    pub args: List<u64>,
    pub answer: Answer,
}

/// The host calls of a run in order, the number of its steps, and its end.
#[derive(Drop)]
pub struct Trace {
    pub calls: List<TraceCall>,
    pub steps: u64,
    pub end: TraceEnd,
}

/// Why bytes are no trace's text, or a trace not that of a run. An earlier one goes first.
#[derive(Drop)]
pub enum TraceFault {
    /// The first line, from 1, at which no text of a trace goes on.
    Line { line: u32 },
    /// The trace has more steps than are allowed.
    Steps,
    /// The module isn't opened for a run.
    Single(SingleFault),
    /// The run isn't that of the trace, with which it agrees in so many calls.
    Differs { call: u32 },
    /// No memory could be had.
    Memory,
}
