//! The limits at which a run stops: of steps, of answers to host calls, and of the bytes that these write.
#![tactic(auto)]

mod limits;
mod written;

pub use limits::{are_many, may_step};
pub use written::bytes_written;
