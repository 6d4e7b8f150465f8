// How a run over a host ends.
use spec_runtime::wasm_form::{Answer, List, Trap};

/// How a run ended: by itself, or by a limit.
#[derive(Clone, Copy, Debug, PartialEq, Eq)]
pub enum RunEnd {
    Return,
    Exit(u32),
    Trap(Trap),
    /// So many steps were made as were allowed.
    StepLimit,
    /// The next step would make the 10,001st activation, or bring the room of all activations above 4,194,304 values.
    DepthLimit,
    /// A host call is waiting, and 1,048,576 answers are recorded, or these have written 268,435,456 bytes or more.
    HostCallLimit,
    /// As many turns of a board were taken as were allowed.
    TurnLimit,
}

/// How a run ended, after how many steps, and the answers that its host gave in order.
#[derive(Drop)]
pub struct Ran {
    pub end: RunEnd,
    pub steps: u64,
    pub answers: List<Answer>,
}
