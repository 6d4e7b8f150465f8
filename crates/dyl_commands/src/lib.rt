//! The commands: each does what its order asks for over files, an input, outputs, a clock and a host table, and answers an outcome. What is told
//! of an outcome is here too, and the steps that the commands `trace` and `replay` share with them.
#![tactic(auto)]

mod board;
mod error_line;
mod exec;
mod generated;
mod laws;
mod merge;
mod one_file;
mod plan;
mod run;
mod sets;
mod snap;
mod store;

pub use board::board_main;
pub use error_line::tell;
pub use exec::{exec_file, exec_module};
pub use generated::gen_main;
pub use laws::{merged_files_run, merges_are_one, snapshots_are_one, texts_are_one};
pub use merge::merge_main;
pub use one_file::{MOST_RUN, fetch_file, read_module};
pub use plan::plan_main;
pub use run::{run_linked, run_main};
pub use sets::{linked_set, refused};
pub use snap::snap_main;
pub use store::store_output;
