// Which expressions are constant (section 3.3.10, with the operators of extended constant expressions). Every value on the stack of a
// constant expression is of its type, so that it is enough to count them.
ghost use Rattle.std.specs.Prelude.{◌≡◌, ℕ, ◌<◌, ◌^◌, Some, None, if◌then◌else◌};
ghost use Rattle.wasm_form.specs.declared.types.ValType.TheVariants.{FuncRef};
ghost use Rattle.wasm_form.specs.declared.instr.Instr.{out-Instr};
ghost use Rattle.spec_execution.specs.spec_binary.SameTypes as types;
ghost use Rattle.spec_execution.specs.spec_binary.Counted.{after_step};
ghost use Rattle.spec_execution.specs.spec_validation.Counted as counts;
ghost use Rattle.spec_execution.specs.spec_validation.Counted.{step_of};
ghost use Rattle.spec_execution.specs.spec_validation.Faults as validation;
ghost use Rattle.wasm_check.specs.Counts.{after_put, after_joined};
ghost use Rattle.wasm_check.specs.Spaces.{AreSpaces};

use crate::fields::{is_function, same_type};
use crate::spaces::Spaces;
use wasm_form::{Expr, GlobalType, IndexForm, Instr, Module, ValType, index_form};

// The value of an immutable global.
fn immutable(ty: GlobalType) -> Option<ValType>
    ensures { result ≡ validation.immutable ty }
{
    if ty.mutable { None } else { Some(ty.value) }
}

// ref.func of a function, or global.get of an imported immutable global.
fn constant_index(m: &Module, spaces: &Spaces, form: IndexForm, n: u32) -> Option<ValType>
    requires { AreSpaces m.now spaces.now }
    ensures { result ≡ validation.constant_index m.now form n }
{
    match form {
        IndexForm::RefFunc => {
            if is_function(m, spaces, n) {
                Some(ValType::FuncRef)
            } else {
                None
            }
        }
        IndexForm::GlobalGet => match spaces.imported.get(n as usize) {
            Some(ty) => immutable(*ty),
            None => None,
        },
        _ => None,
    }
}

fn null_type(t: ValType) -> Option<ValType>
    ensures { result ≡ (if types.same_type t FuncRef then Some FuncRef else None) }
{
    match t {
        ValType::FuncRef => Some(ValType::FuncRef),
        _ => None,
    }
}

// The type of an instruction that puts a constant on the stack.
fn constant_step(m: &Module, spaces: &Spaces, i: &Instr) -> Option<ValType>
    requires { AreSpaces m.now spaces.now }
    ensures { result ≡ validation.constant_step m.now (out-Instr i.now) }
{
    match i {
        Instr::I32Const(_) => Some(ValType::I32),
        Instr::I64Const(_) => Some(ValType::I64),
        Instr::RefNull(t) => null_type(*t),
        Instr::Index(op, n) => match index_form(*op) {
            Some(form) => constant_index(m, spaces, form, *n),
            None => None,
        },
        _ => None,
    }
}

// The type of the values that an operator takes, and of what it gives.
fn arithmetic_type(op: u8) -> Option<ValType>
    ensures { result ≡ counts.arithmetic_type op }
{
    match op {
        0x6A..=0x6C => Some(ValType::I32),
        0x7C..=0x7E => Some(ValType::I64),
        _ => None,
    }
}

// How many values of type t there are after one of type u is put there.
fn put(t: ValType, u: Option<ValType>, n: u64) -> Option<u64>
    requires { n < 2 ^ 63 }
    ensures { result ≡ after_put t u n }
{
    match u {
        Some(u) => { if same_type(t, u) { Some(n + 1) } else { None } }
        None => None,
    }
}

// How many values of type t there are after one of type u is made of two.
fn joined(t: ValType, u: Option<ValType>, n: u64) -> Option<u64>
    ensures { result ≡ after_joined t u n }
{
    match u {
        Some(u) => {
            if same_type(t, u) && n >= 2 {
                Some(n - 1)
            } else {
                None
            }
        }
        None => None,
    }
}

// How many values of type t there are after an instruction; none where it can't stand there.
fn counted(m: &Module, spaces: &Spaces, t: ValType, i: &Instr, n: u64) -> Option<u64>
    requires spaces { AreSpaces m.now spaces.now }
    requires few { n < 2 ^ 63 }
    ensures { result ≡ after_step (step_of m.now t i.now) n }
{
    if let Instr::Plain(op) = i {
        return joined(t, arithmetic_type(*op), n);
    }
    put(t, constant_step(m, spaces, i), n)
}

/// The expression is a constant one of the type.
pub(crate) fn is_constant(m: &Module, spaces: &Spaces, t: ValType, e: &Expr) -> bool
    requires { AreSpaces m.now spaces.now }
    ensures { result ≡ validation.is_constant m.now t e.now }
{
    let mut values = 0;
    for i in e.list.items() {
        match counted(m, spaces, t, i, values) {
            Some(n) => values = n,
            None => return false,
        }
    }
    values == 1
}
