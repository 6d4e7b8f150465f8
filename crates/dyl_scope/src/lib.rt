//! The names that the members of a set define, the orders in which members are gone through, and the definition of a name
//! (DynamicLinking.md of the WebAssembly tool conventions).
#![tactic(auto)]

mod definers;
mod exports;
mod globals;
mod maker;
mod orders;
mod search;
mod symbols;

pub use dyl_names::{Def, DistinctNumbers};
pub use exports::{is_reserved, own_function};
pub use maker::Maker;
pub use symbols::Symbols;
