//! What the members of a linked set have in its store, by addresses; the bases among their imported globals; and the values of their
//! constant expressions (WebAssembly Core 2.0, sections 3.3.10 and 4.2.5).
//!
//! Who runs a set and who merges it stand on this: the store of a run and the merged module have globals, tables and segments in one order.
#![tactic(auto)]

mod addresses;
mod bases;
mod constants;
mod globals;
mod lists;

pub use addresses::Addresses;
pub use bases::{bases_from, bases_of};
pub use constants::{functions_of, offset, value};
pub use lists::{Space, numbered};
