//! A machine that runs code, one step at a time, over a view of its units (WebAssembly Core 2.0, section 4.4).
#![tactic(auto)]

mod callers;
mod calls;
mod event;
mod machine;
mod told;

pub use event::Event;
pub use machine::{Machine, StackTop, Standing};
pub use told::{are_numbers, event_of, holds_bytes, is_of_bytes, stands_told, steps_told};
pub use wasm_form::{Answer, Asked, Value, Write};
pub use wasm_step::Done;
pub use wasm_view::View;
