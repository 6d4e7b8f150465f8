//! Copies of what a module is made of.
#![tactic(auto)]

mod copies;

pub use copies::{copied, copied_code, copied_expr, copied_items, copied_text, copied_type};
