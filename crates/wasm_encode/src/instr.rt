// Instructions and expressions (section 5.4).
ghost use Rattle.std.specs.Prelude.{◌≡◌, ◌<◌, ◌^◌, length, OnOk, IsTrue};
ghost use Rattle.spec_reading.specs.spec_binary.Number.{IsShortest, Appends, SpellsUnsigned, SpellsSigned};
ghost use Rattle.spec_reading.specs.spec_binary.Sequence.{SpellsVec};
ghost use Rattle.spec_reading.specs.spec_binary.Types.{SpellsRefType, SpellsValType};
ghost use Rattle.spec_reading.specs.spec_binary.Instructions.{
  SpellsBlockType,
  SpellsBits,
  SpellsSecond,
  SpellsInstr,
  SpellsInstrs,
  SpellsExpr,
};
ghost use Rattle.spec_reading.specs.spec_binary.Parts.{SpellsConstant};
ghost use Rattle.spec_reading.specs.spec_binary.Trees.{every, every_of};
ghost use Rattle.spec_reading.specs.spec_binary.WellFormed.{is_reference_type, has_form, IsFormedBody, IsFormedConstant};
ghost use Rattle.wasm_form.specs.declared.instr.Instr.{If};
ghost use Rattle.wasm_form.specs.declared.instr.Instr.TheOpen as Open;
ghost use Rattle.spec_reading.specs.spec_binary.Joined.{IsByte, Joined};
ghost use Rattle.wasm_encode.specs.Bodies.{IsBody, IsBodies};

use crate::fault::PartFault;
use crate::part::{Part, put_numbered, put_two, put_vec};
use crate::types::{put_ref_type, type_byte};
use std::alloc::Global;
use wasm_form::{BlockType, Expr, Instr, Memory, ValType};
use wasm_leb::{put_s32, put_s33, put_s64, put_u32};

/// Writes a block's type.
fn put_block_type(alloc: Global, ty: BlockType, to: &mut Vec<u8>) -> Result<(), Memory>
    ensures { OnOk result (Appends (IsShortest (SpellsBlockType ty)) to.old.items to.new.items) }
{
    match ty {
        BlockType::Empty => {
            to.push(0x40)?;
            Ok(())
        }
        BlockType::Value(value) => {
            to.push(type_byte(value))?;
            Ok(())
        }
        BlockType::Index(number) => put_s33(alloc, to, i64::from(number)),
    }
}

/// Writes an opcode and the byte that stands for the memory.
fn put_memory_byte(opcode: u8, to: &mut Vec<u8>) -> Result<(), Memory>
    ensures { OnOk result (Appends (IsShortest (Joined (IsByte opcode) (IsByte 0x00))) to.old.items to.new.items) }
{
    to.push(opcode)?;
    to.push(0x00)?;
    Ok(())
}

/// Writes an opcode and two numbers.
fn put_pair(alloc: Global, opcode: u8, a: u32, b: u32, to: &mut Vec<u8>) -> Result<(), Memory>
    ensures { OnOk result (Appends (IsShortest (Joined (IsByte opcode) (Joined (SpellsUnsigned 32 a) (SpellsUnsigned 32 b)))) to.old.items to.new.items) }
{
    to.push(opcode)?;
    put_two(alloc, a, b, to)
}

/// Writes br_table's labels and the last one.
fn put_labels(alloc: Global, labels: &[u32], last: u32, to: &mut Vec<u8>) -> Result<(), PartFault>
    requires { length labels.now < 2 ^ 32 }
    ensures ok { OnOk result (Appends (IsShortest (Joined (IsByte 0x0E) (Joined (SpellsVec (SpellsUnsigned 32) labels.now) (SpellsUnsigned 32 last)))) to.old.items to.new.items) }
    ensures long { result ≡ Err PartFault.TooLong → ⊥ }
{
    to.push(0x0E)?;
    put_vec(alloc, labels, to)?;
    put_u32(alloc, to, last)?;
    Ok(())
}

/// Writes select with its types.
fn put_select(alloc: Global, types: &[ValType], to: &mut Vec<u8>) -> Result<(), PartFault>
    requires { length types.now < 2 ^ 32 }
    ensures ok { OnOk result (Appends (IsShortest (Joined (IsByte 0x1C) (SpellsVec SpellsValType types.now))) to.old.items to.new.items) }
    ensures long { result ≡ Err PartFault.TooLong → ⊥ }
{
    to.push(0x1C)?;
    put_vec(alloc, types, to)
}

/// Writes a constant of 32 bits.
fn put_i32(alloc: Global, number: i32, to: &mut Vec<u8>) -> Result<(), Memory>
    ensures { OnOk result (Appends (IsShortest (Joined (IsByte 0x41) (SpellsSigned 32 number))) to.old.items to.new.items) }
{
    to.push(0x41)?;
    put_s32(alloc, to, number)
}

/// Writes a constant of 64 bits.
fn put_i64(alloc: Global, number: i64, to: &mut Vec<u8>) -> Result<(), Memory>
    ensures { OnOk result (Appends (IsShortest (Joined (IsByte 0x42) (SpellsSigned 64 number))) to.old.items to.new.items) }
{
    to.push(0x42)?;
    put_s64(alloc, to, number)
}

/// Writes the bits of a float of 32 bits.
fn put_f32(bits: u32, to: &mut Vec<u8>) -> Result<(), Memory>
    ensures { OnOk result (Appends (IsShortest (Joined (IsByte 0x43) (SpellsBits 4 bits))) to.old.items to.new.items) }
{
    to.push(0x43)?;
    to.extend_from_slice(&bits.to_le_bytes())?;
    Ok(())
}

/// Writes the bits of a float of 64 bits.
fn put_f64(bits: u64, to: &mut Vec<u8>) -> Result<(), Memory>
    ensures { OnOk result (Appends (IsShortest (Joined (IsByte 0x44) (SpellsBits 8 bits))) to.old.items to.new.items) }
{
    to.push(0x44)?;
    to.extend_from_slice(&bits.to_le_bytes())?;
    Ok(())
}

/// Writes ref.null with its type.
fn put_null(ty: ValType, to: &mut Vec<u8>) -> Result<(), Memory>
    requires { IsTrue (is_reference_type ty) }
    ensures { OnOk result (Appends (IsShortest (Joined (IsByte 0xD0) (SpellsRefType ty))) to.old.items to.new.items) }
{
    to.push(0xD0)?;
    put_ref_type(ty, to)
}

/// Writes the operands of a second opcode.
fn put_operands(alloc: Global, op: u32, a: u32, b: u32, to: &mut Vec<u8>) -> Result<(), Memory>
    requires { IsTrue (has_form (Open.Prefixed op a b)) }
    ensures { OnOk result (Appends (IsShortest (SpellsSecond op a b)) to.old.items to.new.items) }
{
    if op < 8 {
        Ok(())
    } else if op == 8 {
        put_u32(alloc, to, a)?;
        to.push(0x00)?;
        Ok(())
    } else if op == 10 {
        to.push(0x00)?;
        to.push(0x00)?;
        Ok(())
    } else if op == 11 {
        to.push(0x00)?;
        Ok(())
    } else if op == 12 {
        put_two(alloc, a, b, to)
    } else if op == 14 {
        put_two(alloc, a, b, to)
    } else {
        put_u32(alloc, to, a)
    }
}

/// Writes a second opcode and its operands.
fn put_prefixed(alloc: Global, op: u32, a: u32, b: u32, to: &mut Vec<u8>) -> Result<(), Memory>
    requires { IsTrue (has_form (Open.Prefixed op a b)) }
    ensures { OnOk result (Appends (IsShortest (Joined (IsByte 0xFC) (Joined (SpellsUnsigned 32 op) (SpellsSecond op a b)))) to.old.items to.new.items) }
{
    put_numbered(alloc, 0xFC, op, to)?;
    put_operands(alloc, op, a, b, to)
}

/// Writes a block or a loop.
#[cycle(write)]
fn put_block(
    alloc: Global,
    opcode: u8,
    ty: BlockType,
    body: &Expr,
    to: &mut Vec<u8>,
) -> Result<(), PartFault>
    requires formed { IsTrue (every_of has_form body.now.list) }
    ensures ok { OnOk result (Appends (IsShortest (Joined (IsByte opcode) (IsBody ty body.now))) to.old.items to.new.items) }
    ensures long { result ≡ Err PartFault.TooLong → ⊥ }
{
    to.push(opcode)?;
    put_block_type(alloc, ty, to)?;
    put_instrs(alloc, body.list.items(), to)?;
    to.push(0x0B)?;
    Ok(())
}

/// Writes if and else with their instructions.
#[cycle(write)]
fn put_else(
    alloc: Global,
    ty: BlockType,
    body: &Expr,
    other: &Expr,
    to: &mut Vec<u8>,
) -> Result<(), PartFault>
    requires body { IsTrue (every_of has_form body.now.list) }
    requires other { IsTrue (every_of has_form other.now.list) }
    ensures ok { OnOk result (Appends (IsShortest (Joined (IsByte 0x04) (IsBodies ty body.now other.now))) to.old.items to.new.items) }
    ensures long { result ≡ Err PartFault.TooLong → ⊥ }
{
    to.push(0x04)?;
    put_block_type(alloc, ty, to)?;
    put_instrs(alloc, body.list.items(), to)?;
    to.push(0x05)?;
    put_instrs(alloc, other.list.items(), to)?;
    to.push(0x0B)?;
    Ok(())
}

/// Writes if, with else where there is one.
#[cycle(write)]
fn put_if(
    alloc: Global,
    ty: BlockType,
    body: &Expr,
    other: &Option<Expr>,
    to: &mut Vec<u8>,
) -> Result<(), PartFault>
    requires formed { IsTrue (every has_form (If ty body.now other.now)) }
    ensures ok { OnOk result (Appends (IsShortest (SpellsInstr (If ty body.now other.now))) to.old.items to.new.items) }
    ensures long { result ≡ Err PartFault.TooLong → ⊥ }
{
    match other {
        None => put_block(alloc, 0x04, ty, body, to),
        Some(other) => put_else(alloc, ty, body, other, to),
    }
}

/// Writes an instruction.
#[cycle(write)]
fn put_instr(alloc: Global, instr: &Instr, to: &mut Vec<u8>) -> Result<(), PartFault>
    requires formed { IsTrue (every has_form instr.now) }
    ensures ok { OnOk result (Appends (IsShortest (SpellsInstr instr.now)) to.old.items to.new.items) }
    ensures long { result ≡ Err PartFault.TooLong → ⊥ }
{
    match instr {
        Instr::Plain(op) => Ok(to.push(*op)?),
        Instr::Index(op, number) => Ok(put_numbered(alloc, *op, *number, to)?),
        Instr::Block(ty, body) => put_block(alloc, 0x02, *ty, body, to),
        Instr::Loop(ty, body) => put_block(alloc, 0x03, *ty, body, to),
        Instr::If(ty, body, other) => put_if(alloc, *ty, body, other, to),
        Instr::BrTable(labels, last) => put_labels(alloc, labels.items(), *last, to),
        Instr::CallIndirect { ty, table } => Ok(put_pair(alloc, 0x11, *ty, *table, to)?),
        Instr::Select(types) => put_select(alloc, types.items(), to),
        Instr::Access { op, align, offset } => Ok(put_pair(alloc, *op, *align, *offset, to)?),
        Instr::MemorySize => Ok(put_memory_byte(0x3F, to)?),
        Instr::MemoryGrow => Ok(put_memory_byte(0x40, to)?),
        Instr::I32Const(number) => Ok(put_i32(alloc, *number, to)?),
        Instr::I64Const(number) => Ok(put_i64(alloc, *number, to)?),
        Instr::F32Const(bits) => Ok(put_f32(*bits, to)?),
        Instr::F64Const(bits) => Ok(put_f64(*bits, to)?),
        Instr::RefNull(ty) => Ok(put_null(*ty, to)?),
        Instr::Prefixed { op, a, b } => Ok(put_prefixed(alloc, *op, *a, *b, to)?),
    }
}

/// Writes instructions one after the other.
#[cycle(write)]
fn put_instrs(alloc: Global, instrs: &[Instr], to: &mut Vec<u8>) -> Result<(), PartFault>
    requires formed { IsTrue (every_of has_form instrs.now) }
    ensures ok { OnOk result (Appends (IsShortest (SpellsInstrs instrs.now)) to.old.items to.new.items) }
    ensures long { result ≡ Err PartFault.TooLong → ⊥ }
{
    for instr in instrs {
        put_instr(alloc, instr, to)?;
    }
    Ok(())
}

/// Writes instructions and the byte that ends them.
pub(crate) fn put_expr(alloc: Global, expr: &Expr, to: &mut Vec<u8>) -> Result<(), PartFault>
    requires { IsFormedBody expr.now }
    ensures ok { OnOk result (Appends (IsShortest (SpellsExpr expr.now)) to.old.items to.new.items) }
    ensures long { result ≡ Err PartFault.TooLong → ⊥ }
{
    put_instrs(alloc, expr.list.items(), to)?;
    to.push(0x0B)?;
    Ok(())
}

/// An expression outside a body.
impl Part for Expr {
    ghost writable = { IsFormedConstant };

    ghost spells = { SpellsConstant };

    ghost too_long = { λ _. ⊥ };

    fn put(&self, alloc: Global, to: &mut Vec<u8>) -> Result<(), PartFault> {
        put_expr(alloc, self, to)
    }
}
