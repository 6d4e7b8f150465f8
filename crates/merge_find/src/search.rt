// What a search is for.
ghost use Rattle.std.specs.Prelude.{◌≡◌, ◌<◌, ◌+◌, ◌^◌, IfOk};
ghost use Rattle.merge_find.specs.Building.{missed_code};
ghost use Rattle.merge_find.specs.Finding.{number_code};

use merge_pieces::{number, opcodes};
use std::alloc::Global;
use wasm_form::{Instr, Memory};

/// What is done where no name is the string.
#[derive(Clone, Copy, Drop)]
pub enum Missed {
    /// 0 is returned, as a number of type i64.
    Zero,
    /// The number of an error is kept in a global, and 0 is returned, as a number of type i32.
    Fault { error: u32, global: u32 },
}

/// What a search is for: the local that holds the length of the string, whose address is in local 0, and what is done where no name is the
/// string.
#[derive(Clone, Copy, Drop)]
pub struct Search {
    pub len: u32,
    pub missed: Missed,
}

impl Search {
    // The code that is done where no name is the string.
    pub(crate) fn missed(&self, alloc: Global) -> Result<Vec<Instr>, Memory>
        ensures { IfOk result (λ x. x.items ≡ missed_code self.now.missed) }
    {
        match self.missed {
            Missed::Zero => Ok(vec![in alloc; Instr::I64Const(0), Instr::Plain(opcodes::RETURN)]?),
            Missed::Fault { error, global } => Ok(vec![in alloc;
                number(error),
                Instr::Index(opcodes::GLOBAL_SET, global),
                number(0),
                Instr::Plain(opcodes::RETURN),
            ]?),
        }
    }
}

/// The code for a name in a search for numbers: 2^32 with the number is returned. `Memory` where no memory could be had.
pub fn number_code(alloc: Global, k: u32) -> Result<Vec<Instr>, Memory>
    ensures { IfOk result (λ x. x.items ≡ number_code k) }
{
    let value = 0x1_0000_0000 + u64::from(k);
    Ok(vec![in alloc;
        Instr::I64Const(value.cast_signed()),
        Instr::Plain(opcodes::RETURN),
    ]?)
}
