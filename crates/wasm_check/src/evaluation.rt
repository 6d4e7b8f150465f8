// The values of constant expressions (section 3.3.10, with the operators of extended constant expressions).
ghost use Rattle.std.specs.Prelude.{◌≡◌, ℕ, Option, length, IsTrue, IfOk, IfSome, Some};
ghost use Rattle.wasm_form.specs.declared.types.ValType.{ValType};
ghost use Rattle.wasm_form.specs.declared.runtime.Ref.{Ref};
ghost use Rattle.wasm_form.specs.declared.instr.Instr.{out-Instr};
ghost use Rattle.wasm_form.specs.declared.module.Module.{Module};
ghost use Rattle.spec_execution.specs.spec_binary.IndexSpaces.{imports_of, globals_in};
ghost use Rattle.spec_execution.specs.spec_validation.Faults.{is_constant};
ghost use Rattle.spec_execution.specs.spec_runtime.Constants as constants;
ghost use Rattle.spec_execution.specs.spec_runtime.Constants.{constant_of, numbered_globals};
ghost use Rattle.wasm_check.specs.Constants.{StandsFor, IsOfType, AreOfTypes, IsConstant, known_number, known_globals, AreKnown, HasWordAt, HasWordOf, HasWord, operated, Leaves, left_alone};

use crate::value::{Constant, Known};
use std::alloc::Global;
use wasm_form::{Expr, IndexForm, Instr, Memory, Module, index_form};

fn global_number(globals: &Known, g: u32) -> Option<u64>
    ensures value { result ≡ known_number globals.now g }
    ensures word { HasWordAt globals.now g }
{
    match globals {
        Known::Numbers(numbers) => numbers.get(g as usize).copied(),
        Known::Bases(bases) => match bases.get(g as usize) {
            Some(Some(base)) => Some(u64::from(*base)),
            Some(None) | None => None,
        },
    }
}

// The sum, the difference or the product of two numbers, modulo 2^32 or 2^64.
fn joined(op: u8, a: u64, b: u64) -> Option<u64>
    ensures { result ≡ operated op a b }
{
    let m = 0x1_0000_0000;
    match op {
        0x6A => Some((a % m + b % m) % m),
        0x6B => Some((a % m + (m - b % m)) % m),
        0x6C => Some((a % m) * (b % m) % m),
        0x7C => Some(a.wrapping_add(b)),
        0x7D => Some(a.wrapping_sub(b)),
        0x7E => Some(a.wrapping_mul(b)),
        _ => None,
    }
}

fn index_constant(form: IndexForm, n: u32, globals: &Known) -> Option<Constant>
    ensures value { StandsFor result (λ functions. constants.index_constant functions (known_globals globals.now) form n) }
    ensures word { HasWordOf globals.now (Some form) n }
{
    match form {
        IndexForm::RefFunc => Some(Constant::Func(Some(n))),
        IndexForm::GlobalGet => match global_number(globals, n) {
            Some(number) => Some(Constant::Num(number)),
            None => None,
        },
        _ => None,
    }
}

// The constant that an instruction puts on the stack.
fn instruction_constant(i: &Instr, globals: &Known) -> Option<Constant>
    ensures value { StandsFor result (λ functions. constants.instruction_constant functions (known_globals globals.now) (out-Instr i.now)) }
    ensures word { HasWord globals.now (out-Instr i.now) }
{
    match i {
        Instr::I32Const(n) => Some(Constant::Num(n.cast_unsigned() as u64)),
        Instr::I64Const(n) => Some(Constant::Num(n.cast_unsigned())),
        Instr::RefNull(_) => Some(Constant::Func(None)),
        Instr::Index(op, n) => match index_form(*op) {
            Some(form) => index_constant(form, *n, globals),
            None => None,
        },
        _ => None,
    }
}

// Two constants are taken off, and what the operator makes of them is put on; whether it makes something.
fn operate(stack: &mut Vec<Constant>, op: u8) -> Result<bool, Memory>
    ensures { IfOk result (λ done. (functions : ℕ → Option Ref) → Leaves functions done (constants.after_operator op) stack.old.items stack.new.items) }
{
    match (stack.pop(), stack.pop()) {
        (Some(Constant::Num(b)), Some(Constant::Num(a))) => match joined(op, a, b) {
            Some(n) => {
                stack.push(Constant::Num(n))?;
                Ok(true)
            }
            None => Ok(false),
        },
        _ => Ok(false),
    }
}

// What an instruction does to the constants on the stack; whether it can stand there.
fn step(stack: &mut Vec<Constant>, i: &Instr, globals: &Known) -> Result<bool, Memory>
    ensures value { IfOk result (λ done. (functions : ℕ → Option Ref) → Leaves functions done (constants.after_constant functions (known_globals globals.now) (out-Instr i.now)) stack.old.items stack.new.items) }
    ensures word { HasWord globals.now (out-Instr i.now) }
{
    if let Instr::Plain(op) = i {
        return operate(stack, *op);
    }
    match instruction_constant(i, globals) {
        Some(k) => {
            stack.push(k)?;
            Ok(true)
        }
        None => Ok(false),
    }
}

// The constant, where there is one alone.
fn only(stack: &[Constant]) -> Option<Constant>
    ensures { StandsFor result (λ functions. left_alone functions stack.now) }
{
    if stack.len() == 1 {
        Some(stack[0])
    } else {
        None
    }
}

/// The value of an expression, with what is known of the imported globals: the number, the function by its index or null; none where it
/// isn't a constant expression that gets known globals alone. `Memory` where no memory could be had for its stack.
pub fn evaluate(alloc: Global, e: &Expr, globals: &Known) -> Result<Option<Constant>, Memory>
    ensures value { IfOk result (λ c. StandsFor c (λ functions. constant_of functions (known_globals globals.now) e.now)) }
    ensures typed { (m : Module) (t : ValType) → IsTrue (is_constant m t e.now) → AreKnown m t globals.now → IfOk result (λ c. IfSome c (IsOfType m t)) }
{
    let mut stack = Vec::new(alloc);
    for i in e.list.items() {
        if !step(&mut stack, i, globals)? {
            return Ok(None);
        }
    }
    Ok(only(&stack))
}

/// The value of a constant expression of the module, where the imported globals have these numbers, in order: the
/// number, the function by its index or null. `Memory` where no memory could be had for its stack.
pub fn constant(alloc: Global, m: &Module, e: &Expr, imported: &[u64]) -> Result<Constant, Memory>
    requires typed { IsConstant m.now e.now }
    requires numbers { length imported.now ≡ length (imports_of globals_in m.now.imports) }
    ensures value { IfOk result (λ c. StandsFor (Some c) (λ functions. constant_of functions (numbered_globals imported.now) e.now)) }
    ensures typed { (t : ValType) → IsTrue (is_constant m.now t e.now) → AreOfTypes m.now imported.now → IfOk result (IsOfType m.now t) }
{
    let _module = m;
    let value = evaluate(alloc, e, &Known::Numbers(imported))?;
    Ok(value.unwrap())
}
