// The values of constant expressions of a member, by what its numbers name (WebAssembly Core 2.0, section 3.3.10).
ghost use Rattle.std.specs.Prelude.{◌≡◌, ℕ, slice_get, IfOk, IfSome, IsTrue};
ghost use Rattle.wasm_form.specs.declared.types.ValType.TheVariants.{I32};
ghost use Rattle.wasm_form.specs.declared.module.Module.{Module};
ghost use Rattle.spec_loading.specs.spec_validation.Faults.{is_constant};
ghost use Rattle.spec_loading.specs.spec_runtime.Constants.{constant_of};
ghost use Rattle.spec_loading.specs.spec_linking.LinkedSets.{function_ref};
ghost use Rattle.wasm_check.specs.Constants.{StandsFor, IsOfType, value_of};
ghost use Rattle.dyl_addresses.specs.Offsets.{IsOffset, based, number_with};

use dyl_link::Linked;
use std::alloc::Global;
use wasm_check::{Constant, Known, evaluate};
use wasm_form::{Expr, Memory, Ref, Value};

/// The functions that the numbers of member m name.
pub fn functions_of(linked: &Linked, m: u32) -> &[Ref]
    ensures { (f : ℕ) → slice_get result.now f ≡ function_ref linked.now m f }
{
    match linked.functions().get(m as usize) {
        Some(refs) => refs.items(),
        None => &[],
    }
}

// The value of an expression, where imported globals are these bases.
fn constant(alloc: Global, bases: &[Option<u32>], e: &Expr) -> Result<Option<Constant>, Memory>
    ensures value { IfOk result (λ c. StandsFor c (λ functions. constant_of functions (based bases.now) e.now)) }
    ensures word { (m : Module) → IsTrue (is_constant m I32 e.now) → IfOk result (λ c. IfSome c (IsOfType m I32)) }
{
    evaluate(alloc, e, &Known::Bases(bases))
}

fn constant_value(functions: &[Ref], c: Constant) -> Option<Value>
    ensures { result ≡ value_of (slice_get functions.now) c }
{
    match c {
        Constant::Num(n) => Some(Value::Num(n)),
        Constant::Func(None) => Some(Value::Func(None)),
        Constant::Func(Some(f)) => match functions.get(f as usize) {
            Some(r) => Some(Value::Func(Some(*r))),
            None => None,
        },
    }
}

/// The value of a constant expression, where its numbers name these functions, and imported globals are these bases; none where it gets
/// something else. `Memory` where no memory could be had.
pub fn value(
    alloc: Global,
    functions: &[Ref],
    bases: &[Option<u32>],
    e: &Expr,
) -> Result<Option<Value>, Memory>
    ensures { IfOk result (λ v. v ≡ constant_of (slice_get functions.now) (based bases.now) e.now) }
{
    match constant(alloc, bases, e)? {
        Some(c) => Ok(constant_value(functions, c)),
        None => Ok(None),
    }
}

/// The number of a constant expression of type i32, where imported globals are these bases; none where it gets another one. `Memory` where
/// no memory could be had.
pub fn offset(alloc: Global, bases: &[Option<u32>], e: &Expr) -> Result<Option<u32>, Memory>
    requires { IsOffset e.now }
    ensures { IfOk result (λ n. n ≡ number_with bases.now e.now) }
{
    match constant(alloc, bases, e)? {
        Some(Constant::Num(n)) => Ok(Some(n as u32)),
        Some(Constant::Func(_)) => Ok(None),
        None => Ok(None),
    }
}
