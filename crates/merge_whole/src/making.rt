// The merged module of a linked set, with the numbers of what it has.
ghost use Rattle.std.specs.Prelude.{IfOk};
ghost use Rattle.merge_whole.specs.Parts.{ArePartsOf};

use crate::built::whole::merged_parts;
use crate::made::Parts;
use dyl_link::Linked;
use std::alloc::Global;
use wasm_form::Memory;

/// The parts of a linked set. `Memory` where no memory could be had.
pub fn parts(alloc: Global, linked: &Linked) -> Result<Parts, Memory>
    ensures { IfOk result (λ p. ArePartsOf linked.now p) }
{
    let parts = merged_parts(alloc, linked)?;
    Ok(parts)
}
