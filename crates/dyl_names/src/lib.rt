//! The names that a member of a set defines, the first of some members that defines a name, what is found wrong
//! with a name, and lists of numbers in which each stands once.
#![tactic(auto)]

mod def;
mod findings;
mod first;
mod names;
mod numbers;
mod symbol;

pub use def::Def;
pub use findings::{ill_typed, unresolved};
pub use first::{by_first, by_member};
pub use names::Names;
pub use numbers::{DistinctNumbers, distinct};
pub use symbol::{Definition, Symbol};
