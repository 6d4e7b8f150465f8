// Words of the code of the loader's functions.
ghost use Rattle.std.specs.Prelude.{◌≡◌, ◌++◌, ◌∷◌, [], IfOk};
ghost use Rattle.merge_start.specs.Words.{number};
ghost use Rattle.merge_dl.specs.Words.{when, give_code, fault_code, is_local};
ghost use Rattle.merge_dl.specs.Listed.{finders_in};

use crate::numbers::DlNumbers;
use merge_pieces::opcodes;
use std::alloc::Global;
use wasm_form::{BlockType, Expr, Instr, List, Memory};

pub(crate) fn number(k: u32) -> Instr
    ensures { result ≡ number k }
{
    Instr::I32Const(k.cast_signed())
}

// Code that is done once, where a condition holds.
pub(crate) fn when(code: Vec<Instr>) -> Instr
    ensures { result ≡ when code.items }
{
    let body = Expr {
        list: List::of(code),
    };
    Instr::If(BlockType::Empty, body, None)
}

// The function returns a number.
pub(crate) fn give(alloc: Global, k: u32) -> Result<Vec<Instr>, Memory>
    ensures { IfOk result (λ x. x.items ≡ give_code k) }
{
    Ok(vec![in alloc; number(k), Instr::Plain(opcodes::RETURN)]?)
}

// An error is kept, and the function returns a number.
pub(crate) fn fault(alloc: Global, n: &DlNumbers, e: u32, answer: u32) -> Result<Vec<Instr>, Memory>
    ensures { IfOk result (λ x. x.items ≡ fault_code (finders_in n.now) e answer) }
{
    Ok(vec![in alloc;
        number(e),
        Instr::Index(opcodes::GLOBAL_SET, n.error),
        number(answer),
        Instr::Plain(opcodes::RETURN),
    ]?)
}

// Code that is done where local 0 is a number.
pub(crate) fn where_first(alloc: Global, k: u32, code: Vec<Instr>) -> Result<Vec<Instr>, Memory>
    ensures { IfOk result (λ x. x.items ≡ is_local 0 k ++ when code.items ∷ []) }
{
    Ok(vec![in alloc;
        Instr::Index(opcodes::LOCAL_GET, 0),
        number(k),
        Instr::Plain(opcodes::I32_EQ),
        when(code),
    ]?)
}
