//! The answer to a host call: of WASI, or of a host table.
#![tactic(auto)]

mod binding;
mod hosts;
mod table;

pub use binding::Binding;
pub use hosts::Hosts;
