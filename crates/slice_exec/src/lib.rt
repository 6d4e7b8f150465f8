//! A board of linked sets over one host, to its end: turns are taken, and the host call at which one stops is answered before the next.
#![tactic(auto)]

mod answering;
mod ending;
mod exec;
mod opening;
mod playing;
mod tally;

pub use exec::execute_board;
pub use slice_board::{Pick, Picker};
pub use spec_boards::BoardRan;
