//! Several loaded programs that run in turns: what a turn is, and what a run of all of them is, over one host.
#![tactic(auto)]

ghost use Rattle.spec_boards.specs.Laws.{RoundsAreFair};

mod ran;
mod turn;

pub use ran::BoardRan;
pub use spec_hosts;
pub use turn::{Stop, Turn};

/// Where the number of each turn, modulo that of the programs, is picked, each program has one turn in each round.
pub fn rounds_are_fair()
    ensures { RoundsAreFair }
{}
