// How much a module has of anything.
ghost use Rattle.std.specs.Prelude.{◌≤◌, ◌^◌, OnOk};

use wasm_form::Memory;

// The numbers of items have 32 bits. Nothing has so many, since each takes memory.
const MOST: usize = 0x4000_0000;

/// That there aren't too many items for numbers. Want of memory stands for more of them.
pub(crate) fn has_room(count: usize) -> Result<(), Memory>
    ensures { OnOk result (count ≤ 2 ^ 30) }
{
    if count > MOST {
        return Err(Memory);
    }
    Ok(())
}
