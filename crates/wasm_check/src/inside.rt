// What is not supported in a body: its locals first, then the instructions in the order of their bytes.
ghost use Rattle.std.specs.Prelude.{◌≡◌, ◌+◌, ◌<◌, ◌^◌, length, nat_le};
ghost use Rattle.std.specs.List.{list_all};
ghost use Rattle.wasm_form.specs.Ranges as ranges;
ghost use Rattle.spec_execution.specs.spec_validation.Faults as validation;
ghost use Rattle.wasm_check.specs.Answers.{ChecksTo};
ghost use Rattle.wasm_check.specs.Inside.{unsupported_else, AreSupported};

use crate::support::{are_supported, is_supported, supported_at, type_supported};
use spec_execution::spec_validation::{CheckFault, Place};
use wasm_form::{BlockType, Code, Expr, Group, Instr, Module};

fn within(low: u8, high: u8, opcode: u8) -> bool
    ensures { result ≡ ranges.within low high opcode }
{
    low <= opcode && opcode <= high
}

// The opcodes that load, store or compute floats.
fn is_float_opcode(opcode: u8) -> bool
    ensures { result ≡ validation.is_float_opcode opcode }
{
    within(0x2A, 0x2B, opcode)
        || within(0x38, 0x39, opcode)
        || within(0x5B, 0x66, opcode)
        || within(0x8B, 0xA6, opcode)
        || within(0xA8, 0xAB, opcode)
        || within(0xAE, 0xBF, opcode)
}

// The opcode is supported, or else it is the fault.
fn opcode_supported(function: u32, holds: bool, opcode: u32) -> Result<(), CheckFault>
    ensures { ChecksTo result (validation.unless holds (CheckFault.UnsupportedOp function opcode)) }
{
    if holds {
        Ok(())
    } else {
        Err(CheckFault::UnsupportedOp { function, opcode })
    }
}

fn block_supported(m: &Module, types: &[bool], t: &BlockType) -> bool
    requires { AreSupported m.now types.now }
    ensures { result ≡ validation.block_supported m.now t.now }
{
    match t {
        BlockType::Empty => true,
        BlockType::Value(t) => is_supported(*t),
        BlockType::Index(n) => type_supported(m, types, *n),
    }
}

fn block_supported_at(m: &Module, types: &[bool], n: u32, t: &BlockType) -> Result<(), CheckFault>
    requires { AreSupported m.now types.now }
    ensures { ChecksTo result (validation.unless (validation.block_supported m.now t.now) (CheckFault.UnsupportedType (Place.Body n))) }
{
    supported_at(block_supported(m, types, t), Place::Body(n))
}

#[cycle(scan)]
#[tactic(auto, using(crate::proofs::Unsupported::unsupported_laws))]
fn instr_supported(m: &Module, types: &[bool], n: u32, i: &Instr) -> Result<(), CheckFault>
    requires { AreSupported m.now types.now }
    ensures { ChecksTo result (validation.unsupported m.now n i.now) }
{
    match i {
        Instr::Plain(op) => opcode_supported(n, !is_float_opcode(*op), *op as u32),
        Instr::Access { op, .. } => opcode_supported(n, !is_float_opcode(*op), *op as u32),
        Instr::F32Const(_) => Err(CheckFault::UnsupportedOp {
            function: n,
            opcode: 0x43,
        }),
        Instr::F64Const(_) => Err(CheckFault::UnsupportedOp {
            function: n,
            opcode: 0x44,
        }),
        Instr::Prefixed { op, .. } => second_supported(n, *op),
        Instr::Block(t, e) => {
            block_supported_at(m, types, n, t)?;
            instrs_supported(m, types, n, e.list.items())
        }
        Instr::Loop(t, e) => {
            block_supported_at(m, types, n, t)?;
            instrs_supported(m, types, n, e.list.items())
        }
        Instr::If(t, e, other) => {
            block_supported_at(m, types, n, t)?;
            instrs_supported(m, types, n, e.list.items())?;
            else_supported(m, types, n, other)
        }
        Instr::CallIndirect { ty, .. } => supported_at(
            type_supported(m, types, *ty),
            Place::Body(n),
        ),
        Instr::Select(each) => supported_at(are_supported(each.items()), Place::Body(n)),
        Instr::RefNull(t) => supported_at(is_supported(*t), Place::Body(n)),
        Instr::Index(_, _) => Ok(()),
        Instr::BrTable(_, _) => Ok(()),
        Instr::MemorySize => Ok(()),
        Instr::MemoryGrow => Ok(()),
        Instr::I32Const(_) => Ok(()),
        Instr::I64Const(_) => Ok(()),
    }
}

// A second opcode: those of saturating truncations are below 8.
fn second_supported(n: u32, op: u32) -> Result<(), CheckFault>
    ensures { ChecksTo result (validation.unless (nat_le 8 op) (CheckFault.UnsupportedOp n (0xFC00 + op))) }
{
    if op >= 8 {
        return Ok(());
    }
    Err(CheckFault::UnsupportedOp {
        function: n,
        opcode: 0xFC00 + op,
    })
}

#[cycle(scan)]
fn else_supported(
    m: &Module,
    types: &[bool],
    n: u32,
    other: &Option<Expr>,
) -> Result<(), CheckFault>
    requires { AreSupported m.now types.now }
    ensures { ChecksTo result (unsupported_else m.now n other.now) }
{
    match other {
        Some(e) => instrs_supported(m, types, n, e.list.items()),
        None => Ok(()),
    }
}

#[cycle(scan)]
fn instrs_supported(m: &Module, types: &[bool], n: u32, instrs: &[Instr]) -> Result<(), CheckFault>
    requires { AreSupported m.now types.now }
    ensures { ChecksTo result (validation.unsupported_of m.now n instrs.now) }
{
    for i in instrs {
        instr_supported(m, types, n, i)?;
    }
    Ok(())
}

fn groups_supported(groups: &[Group]) -> bool
    ensures { result ≡ list_all validation.is_group_supported groups.now }
{
    groups.iter().all(|group| is_supported(group.ty))
}

fn body_supported(m: &Module, types: &[bool], n: u32, c: &Code) -> Result<(), CheckFault>
    requires { AreSupported m.now types.now }
    ensures { ChecksTo result (validation.body_supported m.now n c.now) }
{
    supported_at(groups_supported(c.locals.items()), Place::Body(n))?;
    instrs_supported(m, types, n, c.body.list.items())
}

pub(crate) fn bodies_supported(m: &Module, types: &[bool]) -> Result<(), CheckFault>
    requires types { AreSupported m.now types.now }
    requires count { length m.now.codes < 2 ^ 32 }
    ensures { ChecksTo result (validation.first_in (validation.body_supported m.now) 0 m.now.codes) }
{
    let codes = m.codes.items();
    for n in 0..codes.len() {
        body_supported(m, types, n as u32, &codes[n])?;
    }
    Ok(())
}
