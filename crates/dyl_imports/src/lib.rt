//! What the imports of a closed set stand for: memories, tables, bases, cells, and functions with their definitions (DynamicLinking.md of the
//! WebAssembly tool conventions).
#![tactic(auto)]

mod declared;
mod finding;
mod forms;
mod functions;
mod hosts;
mod imports;
mod known;
mod own;
mod refs;
mod uses;
mod weak;

pub use dyl_names;
pub use dyl_scope;
pub use dyl_search;
pub use dyl_section;
pub use forms::{is_function_table, is_i32_global, is_memory};
pub use host_table;
pub use imports::Imports;
pub use uses::{Use, use_of};
pub use wasm_check;
