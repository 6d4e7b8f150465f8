//! A program that is run: one module, or a linked set, loaded. Both are runs of a step system.
#![tactic(auto)]

mod entries;
mod events;
mod loaded;

pub use entries::host_at;
pub use events::{asked_by, end_by};
pub use loaded::Loaded;
