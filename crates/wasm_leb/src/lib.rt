//! Numbers, which are LEB128, and names: reading and writing (WebAssembly Core 2.0, sections 5.2.2 and 5.2.4).
#![tactic(auto)]

mod laws;
mod name;
mod signed;
mod unsigned;

pub use laws::{
    no_name_begins_another, no_number_begins_another, numbers_are_spelled, numbers_within_length,
    one_shortest_name, one_shortest_number,
};
pub use name::{put_name, read_name};
pub use signed::{put_s32, put_s33, put_s64, read_s32, read_s33, read_s64};
pub use unsigned::{put_u32, read_u32};
