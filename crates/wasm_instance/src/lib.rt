//! One module as the only unit of a run: its instance, which a machine runs over (WebAssembly Core 2.0, sections 4.2.5 and 4.5.4).
#![tactic(auto)]

mod applying;
mod constants;
mod imports;
mod instance;
mod opening;
mod rooms;
mod segments;
mod space;
mod tables;
mod view;

pub use instance::Instance;
pub use rooms::rooms_of;
pub use tables::{copy_between, tables_of};
