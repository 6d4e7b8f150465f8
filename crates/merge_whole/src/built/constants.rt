// The values of constant expressions of a member, and constants with these values.
ghost use Rattle.std.specs.Prelude.{◌≡◌, ◌<◌, ◌^◌, IfOk};
ghost use Rattle.wasm_form.specs.declared.runtime.Value.TheVariants as values;
ghost use Rattle.spec_loading.specs.spec_execution.Values.{zero_of};
ghost use Rattle.merge_match.specs.Renumbering as renumbering;
ghost use Rattle.merge_index.specs.Kept.{numbers_in};
ghost use Rattle.merge_start.specs.Words.{number};
ghost use Rattle.merge_module.specs.MergedModule.{constant_instr};
ghost use Rattle.merge_whole.specs.GlobalDefs.{constant_by, FitsIn};

use dyl_addresses::{functions_of, value};
use dyl_link::Linked;
use merge_index::Numbers;
use merge_pieces::opcodes;
use std::alloc::Global;
use wasm_form::{Expr, Instr, Memory, ValType, Value};

// The value of a constant expression of member m, where imported globals are these bases.
pub(crate) fn constant(
    alloc: Global,
    linked: &Linked,
    m: u32,
    bases: &[Option<u32>],
    e: &Expr,
) -> Result<Option<Value>, Memory>
    ensures { IfOk result (λ v. v ≡ constant_by linked.now bases.now m e.now) }
{
    value(alloc, functions_of(linked, m), bases, e)
}

// The value with which globals begin that have no other.
pub(crate) fn zero_of(ty: ValType) -> Value
    ensures { result ≡ zero_of ty }
{
    match ty {
        ValType::I32 | ValType::I64 | ValType::F32 | ValType::F64 => Value::Num(0),
        ValType::FuncRef | ValType::ExternRef => Value::Func(None),
    }
}

// A number of 32 bits.
fn short_instr(k: u64) -> Instr
    requires { k < 2 ^ 32 }
    ensures { result ≡ number k }
{
    Instr::I32Const((k as u32).cast_signed())
}

fn number_instr(ty: ValType, k: u64) -> Instr
    requires { FitsIn ty (values.Num k) }
    ensures { (n : renumbering.Numbers) → result ≡ constant_instr n ty (values.Num k) }
{
    match ty {
        ValType::I64 => Instr::I64Const(k.cast_signed()),
        _ => short_instr(k),
    }
}

// A constant of a type.
pub(crate) fn constant_instr(n: &Numbers, ty: ValType, value: Value) -> Instr
    requires { FitsIn ty value }
    ensures { result ≡ constant_instr (numbers_in n.now) ty value }
{
    match value {
        Value::Num(k) => number_instr(ty, k),
        Value::Func(None) => Instr::RefNull(ValType::FuncRef),
        Value::Func(Some(r)) => Instr::Index(opcodes::REF_FUNC, n.function(r)),
    }
}
