//! Readers of what stands in the sections of a module, at the front of bytes: numbers, names, vectors, types,
//! instructions and segments.
#![tactic(auto)]

mod broken;
mod instr;
mod number;
mod part;
mod sequence;
mod types;

pub use broken::Break;
pub use instr::expr_of;
pub use number::{
    bits_of_eight, bits_of_four, byte_of, contents_of, name_of, s32_of, s33_of, s64_of, u32_of,
};
pub use sequence::{Item, items_of, vec_of, whole_of, whole_vec_of};
pub use types::val_type_of;
