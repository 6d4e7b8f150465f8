// The function that gives the length of a string.
ghost use Rattle.std.specs.Prelude.{◌≡◌, IfOk};
ghost use Rattle.merge_dl.specs.Words.{length_code};
ghost use Rattle.merge_dl.specs.Called.{IsLengthPart};
ghost use Rattle.merge_dl.specs.Listed.{byte_code, length_part};

use crate::parts::{one_local, part, unary_type};
use crate::words::{number, when};
use merge_pieces::opcodes;
use std::alloc::Global;
use wasm_form::{BlockType, Expr, Instr, List, Memory, Part, ValType};

// Where the byte at the address in local 1 isn't zero, the address is raised, and all is done again.
fn byte_code(alloc: Global) -> Result<Vec<Instr>, Memory>
    ensures { IfOk result (λ x. x.items ≡ byte_code) }
{
    let next = vec![in alloc;
        Instr::Index(opcodes::LOCAL_GET, 1),
        number(1),
        Instr::Plain(opcodes::I32_ADD),
        Instr::Index(opcodes::LOCAL_SET, 1),
        Instr::Index(opcodes::BR, 1),
    ]?;
    Ok(vec![in alloc;
        Instr::Index(opcodes::LOCAL_GET, 1),
        Instr::Access {
            op: opcodes::I32_LOAD8_U,
            align: 0,
            offset: 0
        },
        when(next),
    ]?)
}

#[tactic(auto, unfolding(crate::specs::Words::length_code))]
fn length_code(alloc: Global) -> Result<Vec<Instr>, Memory>
    ensures { IfOk result (λ x. x.items ≡ length_code) }
{
    let body = Expr {
        list: List::of(byte_code(alloc)?),
    };
    Ok(vec![in alloc;
        Instr::Index(opcodes::LOCAL_GET, 0),
        Instr::Index(opcodes::LOCAL_SET, 1),
        Instr::Loop(BlockType::Empty, body),
        Instr::Index(opcodes::LOCAL_GET, 1),
        Instr::Index(opcodes::LOCAL_GET, 0),
        Instr::Plain(opcodes::I32_SUB),
    ]?)
}

/// The function that gives the length of the string at an address, and traps where the string has no end in the memory. `Memory` where no
/// memory could be had.
pub fn length_function(alloc: Global) -> Result<Part, Memory>
    ensures code { IfOk result (λ p. p ≡ length_part) }
    ensures works { IfOk result (λ p. IsLengthPart p) }
{
    let ty = unary_type(alloc)?;
    let locals = one_local(alloc, ValType::I32)?;
    let code = length_code(alloc)?;
    Ok(part(ty, locals, code))
}
