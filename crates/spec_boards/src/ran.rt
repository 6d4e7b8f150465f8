// What came of a board.
use spec_hosts::Ran;
use spec_hosts::wasm_form::List;

/// The run of each program, in order, and which program each turn picked.
#[derive(Drop)]
pub struct BoardRan {
    pub runs: List<Ran>,
    pub picks: List<u32>,
}
