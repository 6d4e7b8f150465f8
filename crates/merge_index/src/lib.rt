//! The numbers that functions, types, globals, tables and segments of a linked set have in its merged module, and bodies renumbered.
#![tactic(auto)]

mod functions;
mod laws;
mod lists;
mod numbers;
mod rename;

pub use laws::{numbers_are_distinct, places_have_numbers};
pub use numbers::{LoaderNumbers, Numbers};
