//! A set of modules that is made by its number of members. The constructor of each member adds 1 to a value of the next one, and the
//! main module puts the sum of all values.
#![tactic(auto)]

mod bodies;
mod fault;
mod files;
mod laws;
mod member;
mod names;
mod record;
mod sections;

pub use fault::GenFault;
pub use files::make;
pub use laws::generated_set_links;
