//! The module that holds what a run has: the merged module with the globals, tables, segments and memory of a state.
//!
//! Of the memory and of tables what is zero or null is left out, but for short runs.
#![tactic(auto)]

mod constants;
mod datas;
mod elems;
mod given;
mod globals;
mod memory;
mod pieces;
mod room;
mod tables;
mod whole;

pub use given::{Added, Flat};
pub use whole::held;
