//! What there is to say of snapshots after start-up: which state one is made of, or why there is none; what a snapshot is; and how little is
//! written of a memory and of tables.
#![tactic(auto)]

mod fault;

ghost use Rattle.spec_snapshots.specs.Laws.{MemoryIsFew, WrittenIsOne};

pub use fault::SnapFault;
pub use spec_keeping;
pub use spec_loading;
pub use wasm_form;

/// What is written of a memory and of tables is determined by them, and there are at most 65,536 stretches of a memory.
pub fn written_contents_are_one()
    ensures one { WrittenIsOne }
    ensures few { MemoryIsFew }
{}
