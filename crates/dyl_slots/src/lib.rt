//! The slots that functions of a closed set have in the one table, and the initial values of cells (DynamicLinking.md of the WebAssembly tool
//! conventions).
#![tactic(auto)]

mod cells;
mod defined;
mod fresh;
mod given;
mod limits;
mod members;
mod outside;
mod placings;
mod references;
mod regions;
mod segmented;
mod tables;
mod wanted;

pub use dyl_imports;
pub use dyl_imports::{dyl_names, dyl_scope, dyl_search, dyl_section, host_table, wasm_check};
pub use dyl_plan;
pub use tables::{LoaderSlots, MemberSlots, Tables, make_tables};
