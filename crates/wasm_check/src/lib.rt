//! The check of a module: what is supported, and what is valid (WebAssembly Core 2.0, chapter 3).
#![tactic(auto)]

mod bodies;
mod checked;
mod constants;
mod evaluation;
mod exports;
mod fields;
mod inside;
mod names;
mod refers;
mod spaces;
mod support;
mod value;

pub use checked::{CheckRefused, Checked, check};
pub use evaluation::{constant, evaluate};
pub use exports::{exported_function, imported_functions, imported_globals};
pub use spec_execution::spec_validation::{CheckFault, Field, Place};
pub use value::{Constant, Known};
