//! The calls of WASI preview 1: their names, and the answer to each.
#![tactic(auto)]

mod access;
mod arguments;
mod buffers;
mod calls;
mod descriptors;
mod fulfil;
mod names;
mod replies;
mod want;
mod wasi;

pub use calls::{Call, call_named};
pub use names::declare;
pub use replies::little_bytes;
pub use wasi::Wasi;
