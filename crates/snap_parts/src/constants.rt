// Constants with the values of a run.
ghost use Rattle.std.specs.Prelude.{◌≡◌, IfOk};
ghost use Rattle.merge_match.specs.Renumbering.{reference, entry, value};
ghost use Rattle.merge_index.specs.Kept.{numbers_in};
ghost use Rattle.snap_module.specs.Held.{function_number, reference_instr, constant_instr, expr_of};
ghost use Rattle.merge_pieces.specs.Code.{number};
ghost use Rattle.wasm_form.specs.declared.runtime.Value.TheVariants as values;

use merge_index::Numbers;
use merge_pieces::{number, opcodes};
use std::alloc::Global;
use wasm_form::{Expr, Instr, List, Memory, Ref, ValType, Value};

// ---- what a value is in the merged module

fn reference(numbers: &Numbers, r: Ref) -> Ref
    ensures { result ≡ reference (numbers_in numbers.now) r }
{
    let func = numbers.function(r);
    match r {
        Ref::Host(_) => Ref::Host(func),
        Ref::Own { .. } | Ref::Loader(_) | Ref::Stub { .. } => Ref::Own { unit: 0, func },
    }
}

pub(crate) fn entry(numbers: &Numbers, r: Option<Ref>) -> Option<Ref>
    ensures { result ≡ entry (numbers_in numbers.now) r }
{
    match r {
        None => None,
        Some(r) => Some(reference(numbers, r)),
    }
}

pub(crate) fn value(numbers: &Numbers, v: Value) -> Value
    ensures { result ≡ value (numbers_in numbers.now) v }
{
    match v {
        Value::Num(k) => Value::Num(k),
        Value::Func(r) => Value::Func(entry(numbers, r)),
    }
}

// ---- the constant of such a value

fn function_number(r: Ref) -> u32
    ensures { result ≡ function_number r }
{
    match r {
        Ref::Own { func, .. } => func,
        Ref::Host(entry) => entry,
        Ref::Loader(_) | Ref::Stub { .. } => 0,
    }
}

pub(crate) fn reference_instr(r: Option<Ref>) -> Instr
    ensures { result ≡ reference_instr r }
{
    match r {
        None => Instr::RefNull(ValType::FuncRef),
        Some(r) => Instr::Index(opcodes::REF_FUNC, function_number(r)),
    }
}

// A number of 32 bits. Want of memory stands for a greater one, which no global of such a type has.
fn short_instr(k: u64) -> Result<Instr, Memory>
    ensures { IfOk result (λ i. i ≡ number k) }
{
    if k > 0xFFFF_FFFF {
        return Err(Memory);
    }
    Ok(number(k as u32))
}

fn number_instr(ty: ValType, k: u64) -> Result<Instr, Memory>
    ensures { IfOk result (λ i. i ≡ constant_instr ty (values.Num k)) }
{
    match ty {
        ValType::I64 => Ok(Instr::I64Const(k.cast_signed())),
        _ => short_instr(k),
    }
}

/// A constant of a type.
pub(crate) fn constant_instr(ty: ValType, v: Value) -> Result<Instr, Memory>
    ensures { IfOk result (λ i. i ≡ constant_instr ty v) }
{
    match v {
        Value::Num(k) => number_instr(ty, k),
        Value::Func(r) => Ok(reference_instr(r)),
    }
}

/// An instruction as an expression.
pub(crate) fn expr_of(alloc: Global, i: Instr) -> Result<Expr, Memory>
    ensures { IfOk result (λ e. e ≡ expr_of i) }
{
    Ok(Expr {
        list: List::of(vec![in alloc; i]?),
    })
}
