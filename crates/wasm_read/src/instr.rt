// Instructions and expressions (WebAssembly Core 2.0, section 5.4).
ghost use Rattle.std.specs.Prelude.{◌≡◌, ℕ, ◌<◌, ◌≤◌, length, IfOk};
ghost use Rattle.wasm_form.specs.declared.instr.BlockType.{BlockType};
ghost use Rattle.wasm_form.specs.declared.instr.Instr.{Instr};
ghost use Rattle.wasm_form.specs.declared.instr.Expr.{Expr};
ghost use Rattle.spec_binary.specs.Operands.{
  operands,
  control_operands,
  access_operands,
  reference_operands,
  second_operands,
};
ghost use Rattle.spec_reading.specs.Instructions.{
  type_index_at,
  block_type_at,
  one_number_at,
  two_numbers_at,
  number_and_zero_at,
  one_zero_at,
  two_zeros_at,
  second_at,
  prefixed_at,
  index_at,
  labels_at,
  type_and_table_at,
  value_types_at,
  ref_null_at,
  memory_argument_at,
  memory_size_at,
  memory_grow_at,
  i32_const_at,
  i64_const_at,
  f32_const_at,
  f64_const_at,
  body_at,
  if_at,
  else_at,
  arms_at,
  expr_of,
  Inner,
  operands_at,
  instrs_at,
  expr_at,
};
ghost use Rattle.wasm_read.specs.Given.{Gives};

use crate::broken::Break;
use crate::number::{bits_of_eight, bits_of_four, byte_of, s32_of, s33_of, s64_of, u32_of};
use crate::sequence::Item;
use crate::types::{ref_type_of, val_type_of};
use std::alloc::Global;
use wasm_form::{BlockType, Expr, Instr, List, ValType};

// The index of a type, a number of 33 bits that isn't negative.
fn type_index_of(bytes: &[u8]) -> Result<(BlockType, &[u8]), Break>
    ensures reads { Gives (λ x. (x.0, x.1.now)) result (type_index_at bytes.now) }
    ensures shorter { IfOk result (λ x. length x.1.now ≤ length bytes.now) }
{
    let (n, rest) = s33_of(bytes)?;
    if n < 0 {
        return Err(Break::Broken);
    }
    Ok((BlockType::Index(n as u32), rest))
}

// A byte from 0x40 to 0x7F is no type or a value type, and any other begins an index.
#[tactic(auto, unfolding(spec_reading::specs::Instructions::block_type_at, spec_reading::specs::Types::val_type_at))]
fn block_type_of(bytes: &[u8]) -> Result<(BlockType, &[u8]), Break>
    ensures reads { Gives (λ x. (x.0, x.1.now)) result (block_type_at bytes.now) }
    ensures shorter { IfOk result (λ x. length x.1.now ≤ length bytes.now) }
{
    let [b, after @ ..] = bytes else {
        return Err(Break::Broken);
    };
    if *b == 0x40 {
        return Ok((BlockType::Empty, after));
    }
    if *b < 0x40 || 0x80 <= *b {
        return type_index_of(bytes);
    }
    let (ty, rest) = val_type_of(bytes)?;
    Ok((BlockType::Value(ty), rest))
}

// An index after the opcode.
#[tactic(auto, unfolding(spec_reading::specs::Instructions::index_at))]
fn index_of(opcode: u8, bytes: &[u8]) -> Result<(Instr, &[u8]), Break>
    ensures reads { Gives (λ x. (x.0, x.1.now)) result (index_at opcode bytes.now) }
    ensures shorter { IfOk result (λ x. length x.1.now ≤ length bytes.now) }
{
    let (n, rest) = u32_of(bytes)?;
    Ok((Instr::Index(opcode, n), rest))
}

// The labels of br_table, and its last one.
#[tactic(auto, unfolding(spec_reading::specs::Instructions::labels_at))]
fn labels_of(alloc: Global, bytes: &[u8]) -> Result<(Instr, &[u8]), Break>
    ensures reads { Gives (λ x. (x.0, x.1.now)) result (labels_at bytes.now) }
    ensures shorter { IfOk result (λ x. length x.1.now ≤ length bytes.now) }
{
    let (labels, rest) = List::<u32>::read(alloc, bytes)?;
    let (last, rest) = u32_of(rest)?;
    Ok((Instr::BrTable(labels, last), rest))
}

// The type and the table of call_indirect.
#[tactic(auto, unfolding(spec_reading::specs::Instructions::type_and_table_at))]
fn type_and_table_of(bytes: &[u8]) -> Result<(Instr, &[u8]), Break>
    ensures reads { Gives (λ x. (x.0, x.1.now)) result (type_and_table_at bytes.now) }
    ensures shorter { IfOk result (λ x. length x.1.now ≤ length bytes.now) }
{
    let (ty, rest) = u32_of(bytes)?;
    let (table, rest) = u32_of(rest)?;
    Ok((Instr::CallIndirect { ty, table }, rest))
}

// The types of select.
#[tactic(auto, unfolding(spec_reading::specs::Instructions::value_types_at))]
fn value_types_of(alloc: Global, bytes: &[u8]) -> Result<(Instr, &[u8]), Break>
    ensures reads { Gives (λ x. (x.0, x.1.now)) result (value_types_at bytes.now) }
    ensures shorter { IfOk result (λ x. length x.1.now ≤ length bytes.now) }
{
    let (types, rest) = List::<ValType>::read(alloc, bytes)?;
    Ok((Instr::Select(types), rest))
}

// The type of ref.null.
#[tactic(auto, unfolding(spec_reading::specs::Instructions::ref_null_at))]
fn ref_null_of(bytes: &[u8]) -> Result<(Instr, &[u8]), Break>
    ensures reads { Gives (λ x. (x.0, x.1.now)) result (ref_null_at bytes.now) }
    ensures shorter { IfOk result (λ x. length x.1.now ≤ length bytes.now) }
{
    let (ty, rest) = ref_type_of(bytes)?;
    Ok((Instr::RefNull(ty), rest))
}

// The alignment and the offset of an access to memory.
#[tactic(auto, unfolding(spec_reading::specs::Instructions::memory_argument_at))]
fn memory_argument_of(op: u8, bytes: &[u8]) -> Result<(Instr, &[u8]), Break>
    ensures reads { Gives (λ x. (x.0, x.1.now)) result (memory_argument_at op bytes.now) }
    ensures shorter { IfOk result (λ x. length x.1.now ≤ length bytes.now) }
{
    let (align, rest) = u32_of(bytes)?;
    let (offset, rest) = u32_of(rest)?;
    Ok((Instr::Access { op, align, offset }, rest))
}

// The memory of memory.size.
#[tactic(auto, unfolding(spec_reading::specs::Instructions::memory_size_at))]
fn memory_size_of(bytes: &[u8]) -> Result<(Instr, &[u8]), Break>
    ensures reads { Gives (λ x. (x.0, x.1.now)) result (memory_size_at bytes.now) }
    ensures shorter { IfOk result (λ x. length x.1.now ≤ length bytes.now) }
{
    let rest = byte_of(0x00, bytes)?;
    Ok((Instr::MemorySize, rest))
}

// The memory of memory.grow.
#[tactic(auto, unfolding(spec_reading::specs::Instructions::memory_grow_at))]
fn memory_grow_of(bytes: &[u8]) -> Result<(Instr, &[u8]), Break>
    ensures reads { Gives (λ x. (x.0, x.1.now)) result (memory_grow_at bytes.now) }
    ensures shorter { IfOk result (λ x. length x.1.now ≤ length bytes.now) }
{
    let rest = byte_of(0x00, bytes)?;
    Ok((Instr::MemoryGrow, rest))
}

#[tactic(auto, unfolding(spec_reading::specs::Instructions::i32_const_at))]
fn i32_const_of(bytes: &[u8]) -> Result<(Instr, &[u8]), Break>
    ensures reads { Gives (λ x. (x.0, x.1.now)) result (i32_const_at bytes.now) }
    ensures shorter { IfOk result (λ x. length x.1.now ≤ length bytes.now) }
{
    let (n, rest) = s32_of(bytes)?;
    Ok((Instr::I32Const(n), rest))
}

#[tactic(auto, unfolding(spec_reading::specs::Instructions::i64_const_at))]
fn i64_const_of(bytes: &[u8]) -> Result<(Instr, &[u8]), Break>
    ensures reads { Gives (λ x. (x.0, x.1.now)) result (i64_const_at bytes.now) }
    ensures shorter { IfOk result (λ x. length x.1.now ≤ length bytes.now) }
{
    let (n, rest) = s64_of(bytes)?;
    Ok((Instr::I64Const(n), rest))
}

#[tactic(auto, unfolding(spec_reading::specs::Instructions::f32_const_at))]
fn f32_const_of(bytes: &[u8]) -> Result<(Instr, &[u8]), Break>
    ensures reads { Gives (λ x. (x.0, x.1.now)) result (f32_const_at bytes.now) }
    ensures shorter { IfOk result (λ x. length x.1.now ≤ length bytes.now) }
{
    let (bits, rest) = bits_of_four(bytes)?;
    Ok((Instr::F32Const(bits), rest))
}

#[tactic(auto, unfolding(spec_reading::specs::Instructions::f64_const_at))]
fn f64_const_of(bytes: &[u8]) -> Result<(Instr, &[u8]), Break>
    ensures reads { Gives (λ x. (x.0, x.1.now)) result (f64_const_at bytes.now) }
    ensures shorter { IfOk result (λ x. length x.1.now ≤ length bytes.now) }
{
    let (bits, rest) = bits_of_eight(bytes)?;
    Ok((Instr::F64Const(bits), rest))
}

fn one_number_of(op: u32, bytes: &[u8]) -> Result<(Instr, &[u8]), Break>
    ensures reads { Gives (λ x. (x.0, x.1.now)) result (one_number_at op bytes.now) }
    ensures shorter { IfOk result (λ x. length x.1.now ≤ length bytes.now) }
{
    let (a, rest) = u32_of(bytes)?;
    Ok((Instr::Prefixed { op, a, b: 0 }, rest))
}

fn two_numbers_of(op: u32, bytes: &[u8]) -> Result<(Instr, &[u8]), Break>
    ensures reads { Gives (λ x. (x.0, x.1.now)) result (two_numbers_at op bytes.now) }
    ensures shorter { IfOk result (λ x. length x.1.now ≤ length bytes.now) }
{
    let (a, rest) = u32_of(bytes)?;
    let (b, rest) = u32_of(rest)?;
    Ok((Instr::Prefixed { op, a, b }, rest))
}

fn number_and_zero_of(op: u32, bytes: &[u8]) -> Result<(Instr, &[u8]), Break>
    ensures reads { Gives (λ x. (x.0, x.1.now)) result (number_and_zero_at op bytes.now) }
    ensures shorter { IfOk result (λ x. length x.1.now ≤ length bytes.now) }
{
    let (a, rest) = u32_of(bytes)?;
    let rest = byte_of(0x00, rest)?;
    Ok((Instr::Prefixed { op, a, b: 0 }, rest))
}

fn one_zero_of(op: u32, bytes: &[u8]) -> Result<(Instr, &[u8]), Break>
    ensures reads { Gives (λ x. (x.0, x.1.now)) result (one_zero_at op bytes.now) }
    ensures shorter { IfOk result (λ x. length x.1.now ≤ length bytes.now) }
{
    let rest = byte_of(0x00, bytes)?;
    Ok((Instr::Prefixed { op, a: 0, b: 0 }, rest))
}

fn two_zeros_of(op: u32, bytes: &[u8]) -> Result<(Instr, &[u8]), Break>
    ensures reads { Gives (λ x. (x.0, x.1.now)) result (two_zeros_at op bytes.now) }
    ensures shorter { IfOk result (λ x. length x.1.now ≤ length bytes.now) }
{
    let rest = byte_of(0x00, bytes)?;
    let rest = byte_of(0x00, rest)?;
    Ok((Instr::Prefixed { op, a: 0, b: 0 }, rest))
}

// What follows the second opcode.
fn second_of(op: u32, bytes: &[u8]) -> Result<(Instr, &[u8]), Break>
    ensures reads { Gives (λ x. (x.0, x.1.now)) result (second_at (second_operands op) op bytes.now) }
    ensures shorter { IfOk result (λ x. length x.1.now ≤ length bytes.now) }
{
    match op {
        0..=7 => Ok((Instr::Prefixed { op, a: 0, b: 0 }, bytes)),
        8 => number_and_zero_of(op, bytes),
        9 | 13 | 15 | 16 | 17 => one_number_of(op, bytes),
        10 => two_zeros_of(op, bytes),
        11 => one_zero_of(op, bytes),
        12 | 14 => two_numbers_of(op, bytes),
        _ => Err(Break::Broken),
    }
}

// The second opcode, and what follows it.
#[tactic(auto, unfolding(spec_reading::specs::Instructions::prefixed_at))]
fn prefixed_of(bytes: &[u8]) -> Result<(Instr, &[u8]), Break>
    ensures reads { Gives (λ x. (x.0, x.1.now)) result (prefixed_at bytes.now) }
    ensures shorter { IfOk result (λ x. length x.1.now ≤ length bytes.now) }
{
    let (op, rest) = u32_of(bytes)?;
    second_of(op, rest)
}

// Variable, table and memory instructions and constants.
#[tactic(auto, unfolding(spec_binary::specs::Operands::access_operands))]
fn access_of(opcode: u8, bytes: &[u8]) -> Result<(Instr, &[u8]), Break>
    requires least { 0x20 ≤ opcode }
    requires below { opcode < 0x45 }
    ensures reads { (inner : Inner) (room : ℕ) → Gives (λ x. (x.0, x.1.now)) result (operands_at inner room (access_operands opcode) opcode bytes.now) }
    ensures shorter { IfOk result (λ x. length x.1.now ≤ length bytes.now) }
{
    match opcode {
        0x20..=0x26 => index_of(opcode, bytes),
        0x28..=0x3E => memory_argument_of(opcode, bytes),
        0x3F => memory_size_of(bytes),
        0x40 => memory_grow_of(bytes),
        0x41 => i32_const_of(bytes),
        0x42 => i64_const_of(bytes),
        0x43 => f32_const_of(bytes),
        0x44 => f64_const_of(bytes),
        _ => Err(Break::Broken),
    }
}

// Reference instructions, and those with a second opcode.
#[tactic(auto, unfolding(spec_binary::specs::Operands::reference_operands))]
fn reference_of(opcode: u8, bytes: &[u8]) -> Result<(Instr, &[u8]), Break>
    requires { 0xC5 ≤ opcode }
    ensures reads { (inner : Inner) (room : ℕ) → Gives (λ x. (x.0, x.1.now)) result (operands_at inner room (reference_operands opcode) opcode bytes.now) }
    ensures shorter { IfOk result (λ x. length x.1.now ≤ length bytes.now) }
{
    match opcode {
        0xD0 => ref_null_of(bytes),
        0xD1 => Ok((Instr::Plain(opcode), bytes)),
        0xD2 => index_of(opcode, bytes),
        0xFC => prefixed_of(bytes),
        _ => Err(Break::Broken),
    }
}

// The expression of these instructions. It keeps no room for more, which would be a quarter of a decoded module.
fn ended(mut instrs: Vec<Instr>) -> Expr
    ensures { result ≡ expr_of instrs.items }
{
    instrs.shrink_to_fit();
    Expr {
        list: List::of(instrs),
    }
}

// Instructions up to the byte that ends them, where so many blocks may be nested.
#[cycle(instr)]
fn instrs_of(alloc: Global, bytes: &[u8], room: u32) -> Result<(Vec<Instr>, &[u8]), Break>
    ensures reads { (k : ℕ) → length bytes.now < k → Gives (λ x. (x.0.items, x.1.now)) result (instrs_at k room bytes.now) }
    ensures shorter { IfOk result (λ x. length x.1.now ≤ length bytes.now) }
{
    let mut instrs = Vec::new(alloc);
    let mut rest = bytes;
    while let [opcode, after @ ..] = rest {
        if *opcode == 0x05 || *opcode == 0x0B {
            return Ok((instrs, rest));
        }
        let (instr, next) = instr_of(alloc, *opcode, after, room)?;
        instrs.push(instr)?;
        rest = next;
    }
    Err(Break::Broken)
}

// What follows the opcode.
#[cycle(instr)]
fn instr_of(alloc: Global, opcode: u8, bytes: &[u8], room: u32) -> Result<(Instr, &[u8]), Break>
    ensures reads { (k : ℕ) → length bytes.now < k → Gives (λ x. (x.0, x.1.now)) result (operands_at (instrs_at k) room (operands opcode) opcode bytes.now) }
    ensures shorter { IfOk result (λ x. length x.1.now ≤ length bytes.now) }
{
    if opcode < 0x20 {
        control_of(alloc, opcode, bytes, room)
    } else if opcode < 0x45 {
        access_of(opcode, bytes)
    } else if opcode < 0xC5 {
        Ok((Instr::Plain(opcode), bytes))
    } else {
        reference_of(opcode, bytes)
    }
}

// Control instructions and parametric ones.
#[cycle(instr)]
#[tactic(auto, unfolding(spec_binary::specs::Operands::control_operands))]
fn control_of(alloc: Global, opcode: u8, bytes: &[u8], room: u32) -> Result<(Instr, &[u8]), Break>
    requires { opcode < 0x20 }
    ensures reads { (k : ℕ) → length bytes.now < k → Gives (λ x. (x.0, x.1.now)) result (operands_at (instrs_at k) room (control_operands opcode) opcode bytes.now) }
    ensures shorter { IfOk result (λ x. length x.1.now ≤ length bytes.now) }
{
    match opcode {
        0x00 | 0x01 | 0x0F | 0x1A | 0x1B => Ok((Instr::Plain(opcode), bytes)),
        0x02 => {
            let (ty, body, rest) = body_of(alloc, bytes, room)?;
            Ok((Instr::Block(ty, body), rest))
        }
        0x03 => {
            let (ty, body, rest) = body_of(alloc, bytes, room)?;
            Ok((Instr::Loop(ty, body), rest))
        }
        0x04 => if_of(alloc, bytes, room),
        0x0C | 0x0D | 0x10 => index_of(opcode, bytes),
        0x0E => labels_of(alloc, bytes),
        0x11 => type_and_table_of(bytes),
        0x1C => value_types_of(alloc, bytes),
        _ => Err(Break::Broken),
    }
}

// The type of a block, and the instructions in it.
#[cycle(instr)]
#[tactic(auto, unfolding(spec_reading::specs::Instructions::body_at))]
fn body_of(alloc: Global, bytes: &[u8], room: u32) -> Result<(BlockType, Expr, &[u8]), Break>
    ensures reads { (k : ℕ) → length bytes.now < k → (make : BlockType → Expr → Instr) → Gives (λ x. (make x.0 x.1, x.2.now)) result (body_at (instrs_at k) room make bytes.now) }
    ensures shorter { IfOk result (λ x. length x.2.now ≤ length bytes.now) }
{
    if room == 0 {
        return Err(Break::TooDeep);
    }
    let (ty, rest) = block_type_of(bytes)?;
    let (instrs, rest) = instrs_of(alloc, rest, room - 1)?;
    let rest = byte_of(0x0B, rest)?;
    Ok((ty, ended(instrs), rest))
}

// The type of `if`, and its instructions, and those of its `else`.
#[cycle(instr)]
#[tactic(auto, unfolding(spec_reading::specs::Instructions::if_at))]
fn if_of(alloc: Global, bytes: &[u8], room: u32) -> Result<(Instr, &[u8]), Break>
    ensures reads { (k : ℕ) → length bytes.now < k → Gives (λ x. (x.0, x.1.now)) result (if_at (instrs_at k) room bytes.now) }
    ensures shorter { IfOk result (λ x. length x.1.now ≤ length bytes.now) }
{
    if room == 0 {
        return Err(Break::TooDeep);
    }
    let (ty, rest) = block_type_of(bytes)?;
    let (instrs, rest) = instrs_of(alloc, rest, room - 1)?;
    arms_of(alloc, ty, instrs, rest, room - 1)
}

// What follows the instructions of `if`: its end, or an `else`.
#[cycle(instr)]
#[tactic(auto, unfolding(spec_reading::specs::Instructions::arms_at))]
fn arms_of(
    alloc: Global,
    ty: BlockType,
    instrs: Vec<Instr>,
    bytes: &[u8],
    room: u32,
) -> Result<(Instr, &[u8]), Break>
    ensures reads { (k : ℕ) → length bytes.now < k → Gives (λ x. (x.0, x.1.now)) result (arms_at (instrs_at k) room ty instrs.items bytes.now) }
    ensures shorter { IfOk result (λ x. length x.1.now ≤ length bytes.now) }
{
    match bytes {
        [0x0B, rest @ ..] => Ok((Instr::If(ty, ended(instrs), None), rest)),
        [0x05, rest @ ..] => else_of(alloc, ty, instrs, rest, room),
        _ => Err(Break::Broken),
    }
}

// The instructions of an `else`, and the byte that ends them.
#[cycle(instr)]
fn else_of(
    alloc: Global,
    ty: BlockType,
    instrs: Vec<Instr>,
    bytes: &[u8],
    room: u32,
) -> Result<(Instr, &[u8]), Break>
    ensures reads { (k : ℕ) → length bytes.now < k → Gives (λ x. (x.0, x.1.now)) result (else_at (instrs_at k) room ty instrs.items bytes.now) }
    ensures shorter { IfOk result (λ x. length x.1.now ≤ length bytes.now) }
{
    let (others, rest) = instrs_of(alloc, bytes, room)?;
    let rest = byte_of(0x0B, rest)?;
    Ok((Instr::If(ty, ended(instrs), Some(ended(others))), rest))
}

// An expression, where so many blocks may be nested.
#[tactic(auto, unfolding(spec_reading::specs::Instructions::expr_within))]
pub fn expr_of(alloc: Global, bytes: &[u8], room: u32) -> Result<(Expr, &[u8]), Break>
    ensures reads { Gives (λ x. (x.0, x.1.now)) result (expr_at room bytes.now) }
    ensures shorter { IfOk result (λ x. length x.1.now ≤ length bytes.now) }
{
    let (instrs, rest) = instrs_of(alloc, bytes, room)?;
    let rest = byte_of(0x0B, rest)?;
    Ok((ended(instrs), rest))
}
