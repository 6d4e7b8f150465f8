//! What the text of a row stands for: names, bytes by words, and modules by their parts.
#![tactic(auto)]

mod modules;
mod refused;
mod texts;
mod words;

pub use modules::{Module, is_part};
pub use refused::Refused;
pub use texts::{bytes_of, names_of, shown, words_of};
pub use words::Words;
