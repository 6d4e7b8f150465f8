//! Pieces of a merged module that numbers alone determine: the code of guards and openings, passive segments, the memory, a body that traps,
//! numbers of members in lists, and the names of opcodes.
#![tactic(auto)]

mod code;
mod contents;
mod numbers;
pub mod opcodes;

pub use code::{guarded, number, opening_code};
pub use contents::{memory_type, passive_data, trap};
pub use numbers::number_at;
