//! How far the members of a loaded set have come, which of them are promoted, the error of its loader, and what the functions of its loader
//! answer.
#![tactic(auto)]

mod answers;
mod errors;
mod promoted;
mod searching;
mod stages;
mod strings;

pub use answers::{close_answer, error_answer, open_answer, symbol_answer};
pub use errors::Errors;
pub use promoted::Promoted;
pub use searching::search;
pub use spec_loading::{Finding, Opening};
pub use stages::Stages;
