//! The `dylink.0` section of a module (DynamicLinking.md of the WebAssembly tool conventions): what it says, and its bytes.
#![tactic(auto)]

mod fault;
mod laws;
mod note;
mod read;
mod record;
mod said;
mod write;

pub use laws::{one_record_answer, some_record_answer, written_is_recorded};
pub use read::read_dylink;
pub use record::{Dylink, ExportInfo, ImportInfo};
pub use spec_linking::RecordFault;
pub use write::write_dylink;
