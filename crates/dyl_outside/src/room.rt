// Room for bytes that are to be read.
ghost use Rattle.std.specs.Prelude.{◌≡◌, length, IfOk};

use std::alloc::Global;
use std::vec;
use wasm_form::Memory;

/// So many bytes, which a read is to replace.
pub fn room(alloc: Global, size: usize) -> Result<Vec<u8>, Memory>
    ensures { IfOk result (λ bytes. length bytes.items ≡ size) }
{
    Ok(vec![in alloc; 0; size]?)
}
