// Storing what a command writes.
ghost use Rattle.dyl_commands.specs.Served.{StoresOutput, StoredBy, StoreCounts};

use dyl_front::Outcome;
use spec_hosts::dyl_outside::{Files, IoFault};
use std::alloc::Global;

/// Stores the output, or answers why it isn't stored.
pub fn store_output<F: Files>(
    alloc: Global,
    out: &str,
    bytes: &[u8],
    files: &mut F,
) -> Result<(), Outcome>
    ensures stored { StoresOutput out.now bytes.now result (F.seen files.old) (F.seen files.new) }
    ensures counts { StoreCounts (StoredBy result) (F.seen files.old) (F.seen files.new) }
{
    match files.store(alloc, out, bytes) {
        Ok(()) => Ok(()),
        Err(IoFault::Failed) => Err(Outcome::WriteFault),
        Err(IoFault::Memory) => Err(Outcome::Memory),
    }
}
