// The search of a name by the call of a function.
ghost use Rattle.std.specs.Prelude.{◌≡◌, IfOk};
ghost use Rattle.merge_find.specs.Trying.{try_code, SearchesOnce};

use crate::asking::when;
use merge_pieces::opcodes;
use std::alloc::Global;
use wasm_form::{Instr, Memory};

/// The code that calls a function for a name, whose address and length are in locals 1 and 2, and returns the low half of what it gives, unless
/// it gives 0. It calls it once. `Memory` where no memory could be had.
pub fn try_code(alloc: Global, find: u32) -> Result<Vec<Instr>, Memory>
    ensures code { IfOk result (λ x. x.items ≡ try_code find) }
    ensures once { IfOk result (λ x. SearchesOnce find x.items) }
{
    let found = vec![in alloc;
        Instr::Index(opcodes::LOCAL_GET, 3),
        Instr::Plain(opcodes::I32_WRAP_I64),
        Instr::Plain(opcodes::RETURN),
    ]?;
    Ok(vec![in alloc;
        Instr::Index(opcodes::LOCAL_GET, 1),
        Instr::Index(opcodes::LOCAL_GET, 2),
        Instr::Index(opcodes::CALL, find),
        Instr::Index(opcodes::LOCAL_TEE, 3),
        Instr::Plain(opcodes::I64_EQZ),
        Instr::Plain(opcodes::I32_EQZ),
        when(found),
    ]?)
}
