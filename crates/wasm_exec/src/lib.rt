//! A run to its end of one module or of a loaded set, whose host calls WASI and a host table answer. One driver makes the steps of both.
#![tactic(auto)]

mod driver;
mod exec;

pub use exec::{execute, execute_set, host_names};
pub use spec_hosts::{Ran, RunEnd};
