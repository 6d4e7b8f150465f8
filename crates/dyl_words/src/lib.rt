//! The words after a command of the program: plain words, and options with their values. They are read by `clap`.
#![tactic(auto)]

mod asked;
mod matching;
mod names;

pub use asked::{AskFault, Asked, ask};
pub use names::{CommandName, OptionName};
