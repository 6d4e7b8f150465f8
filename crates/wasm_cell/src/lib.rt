//! A value as the stack of the interpreter keeps it: where its kind is known it is read and written without a look at it
//! (WebAssembly Core 2.0, section 4.2.1).
#![tactic(auto)]

mod cell;

pub use cell::Cell;
