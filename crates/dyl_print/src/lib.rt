//! How texts, numbers, names, bytes and ends of runs are printed: each is put at the end of a text.
#![tactic(auto)]

mod bytes;
mod ends;
mod names;
mod texts;

pub use bytes::{put_bytes, put_hex};
pub use ends::{put_end, put_trap};
pub use names::put_escaped;
pub use texts::{put_number, put_text};
