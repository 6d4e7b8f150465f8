//! What is read and what is printed: words to an order, an outcome to its line and its exit status.
#![tactic(auto)]

mod binds;
mod boards;
mod faults;
mod lines;
mod list;
mod names;
mod options;
mod order;
mod outcome;
mod reports;
mod slots;
mod words;

pub use dyl_link::LinkOptions;
pub use dyl_link::dyl_search::SetOptions;
pub use lines::{is_silent, line, link_line, set_line, usage_line};
pub use list::listing;
pub use order::Order;
pub use outcome::{Opt, Outcome, UsageKind, status};
pub use reports::{Report, summary};
pub use words::{WordFault, collected, read_words};
