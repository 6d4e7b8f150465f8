//! The code that searches a string among names by decisions: what it finds, in how many steps, how deep its blocks are nested, and its type.
#![tactic(auto)]

mod asking;
mod building;
mod found;
mod key;
mod laws;
mod named;
mod place;
mod search;
mod trying;

pub use building::search_code;
pub use laws::{
    exports_are_texts, searches_are_small, searches_are_typed, searches_come, searches_find,
};
pub use named::{Named, put_named};
pub use search::{Missed, Search, number_code};
pub use trying::try_code;
