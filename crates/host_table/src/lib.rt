//! Host functions: callbacks beside the fact that their answers fit, and the names under which host functions are
//! declared.
#![tactic(auto)]

mod copies;
mod entry;
mod host;
mod module;
mod names;
mod numbers;
mod table;
mod types;

pub use entry::{AddFault, AddRefused, HostTable};
pub use host::{Callback, HostName, Put, Reply};
pub use module::HostMatch;
pub use names::HostNames;
pub use numbers::HostNumbers;
