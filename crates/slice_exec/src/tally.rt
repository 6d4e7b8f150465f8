// What is counted of a board.

/// How many bytes the answers of each program have written, and which program each turn picked.
#[derive(Drop)]
pub(crate) struct Tally {
    pub written: Vec<u128>,
    pub picks: Vec<u32>,
}
