// One turn.

/// Why a turn stopped, in the order in which the causes are looked for before each step.
#[derive(Clone, Copy, Debug, PartialEq, Eq)]
pub enum Stop {
    /// The program has ended.
    Ended,
    /// It has made as many steps as it may make in all.
    StepLimit,
    /// It waits for an answer that isn't recorded.
    Waits,
    /// The turn has made as many steps as a turn may make.
    Spent,
    /// The next step would make the 10,001st activation, or bring the room of all activations above 4,194,304 values.
    Deep,
}

/// Which program was picked, how many steps the turn made, and why it stopped.
#[derive(Clone, Copy, Debug, PartialEq, Eq)]
pub struct Turn {
    pub program: u32,
    pub steps: u32,
    pub stop: Stop,
}
