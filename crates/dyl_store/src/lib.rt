//! The run of a loaded set: its members share one memory, one table and one stack pointer, and the loader opens them
//! (DynamicLinking.md of the WebAssembly tool conventions; WebAssembly Core 2.0, section 4.2.3).
#![tactic(auto)]

mod callees;
mod cells;
mod constants;
mod contents;
mod frames;
mod loader;
mod opened_members;
mod opening;
mod place_member;
mod run_member;
mod running;
mod segment_places;
mod segments;
mod set_run;
mod shared;
mod store;
mod tasks;
mod view;
mod world;

pub use store::Store;
pub use wasm_machine::{Answer, Asked, Event};
