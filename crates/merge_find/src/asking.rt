// Questions.
ghost use Rattle.std.specs.Prelude.{◌≡◌, ◌++◌, IfOk, OnOk};
ghost use Rattle.merge_find.specs.Decisions.{when, key_code, asked, exact_code};

use crate::key::Key;
use merge_pieces::{number, opcodes};
use std::alloc::Global;
use wasm_form::{BlockType, Expr, Instr, List, Memory};

// Code that is done once, where a condition holds.
pub(crate) fn when(code: Vec<Instr>) -> Instr
    ensures { result ≡ when code.items }
{
    let body = Expr {
        list: List::of(code),
    };
    Instr::If(BlockType::Empty, body, None)
}

fn put_key(to: &mut Vec<Instr>, len: u32, key: Key) -> Result<(), Memory>
    ensures { OnOk result (to.new.items ≡ to.old.items ++ key_code len key) }
{
    match key {
        Key::Size => to.push(Instr::Index(opcodes::LOCAL_GET, len))?,
        Key::Byte(i) => {
            to.push(Instr::Index(opcodes::LOCAL_GET, 0))?;
            to.push(Instr::Access {
                op: opcodes::I32_LOAD8_U,
                align: 0,
                offset: i,
            })?;
        }
    }
    Ok(())
}

// Code that is done where an operator says so of what is asked and a number.
#[tactic(auto, unfolding(crate::specs::Decisions::asked))]
pub(crate) fn put_asked(
    to: &mut Vec<Instr>,
    len: u32,
    key: Key,
    op: u8,
    bound: u32,
    code: Vec<Instr>,
) -> Result<(), Memory>
    ensures { OnOk result (to.new.items ≡ to.old.items ++ asked len key op bound code.items) }
{
    put_key(to, len, key)?;
    to.push(number(bound))?;
    to.push(Instr::Plain(op))?;
    to.push(when(code))?;
    Ok(())
}

// Where what is asked is another number, the block of the search is left.
#[tactic(auto, unfolding(crate::specs::Decisions::exact_code))]
pub(crate) fn put_exact(
    to: &mut Vec<Instr>,
    len: u32,
    key: Key,
    value: u32,
    deep: u32,
) -> Result<(), Memory>
    ensures { OnOk result (to.new.items ≡ to.old.items ++ exact_code len key value deep) }
{
    put_key(to, len, key)?;
    to.push(number(value))?;
    to.push(Instr::Plain(opcodes::I32_NE))?;
    to.push(Instr::Index(opcodes::BR_IF, deep))?;
    Ok(())
}
