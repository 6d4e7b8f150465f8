// The values of constant expressions (section 3.3.10).
ghost use Rattle.std.specs.Prelude.{◌≡◌, IsTrue, IfOk, Some, map};
ghost use Rattle.wasm_form.specs.declared.types.ValType.TheVariants.{I32, FuncRef};
ghost use Rattle.spec_safety.specs.spec_validation.Faults.{is_constant, global_fits};
ghost use Rattle.spec_safety.specs.spec_execution.Instances.{constant_value, constant_offset, constant_reference, global_value};
ghost use Rattle.spec_safety.specs.Laws.{IsAlone};
ghost use Rattle.wasm_check.specs.Constants.{IsConstant};
ghost use Rattle.wasm_instance.specs.Imports.{ImportsFunctions};
ghost use Rattle.wasm_instance.specs.Constants.{value_of};

use crate::imports::named;
use std::alloc::Global;
use wasm_check::{Constant, constant};
use wasm_form::{Expr, GlobalDef, Memory, Module, Ref, Value};

fn valued(imported: u32, c: Constant) -> Value
    ensures { result ≡ value_of imported c }
{
    match c {
        Constant::Num(n) => Value::Num(n),
        Constant::Func(None) => Value::Func(None),
        Constant::Func(Some(f)) => Value::Func(Some(named(imported, f))),
    }
}

/// The value of a constant expression.
pub(crate) fn value(alloc: Global, m: &Module, imported: u32, e: &Expr) -> Result<Value, Memory>
    requires source { ImportsFunctions m.now imported }
    requires typed { IsConstant m.now e.now }
    ensures { IfOk result (λ v. constant_value m.now e.now ≡ Some v) }
{
    let c = constant(alloc, m, e, &[])?;
    Ok(valued(imported, c))
}

/// The address or the index where an active segment goes.
pub(crate) fn offset(alloc: Global, m: &Module, e: &Expr) -> Result<u32, Memory>
    requires alone { IsAlone m.now }
    requires number { IsTrue (is_constant m.now I32 e.now) }
    ensures { IfOk result (λ at. constant_offset m.now e.now ≡ Some at) }
{
    match constant(alloc, m, e, &[])? {
        Constant::Num(n) => Ok(n as u32),
        Constant::Func(_) => unreachable!(),
    }
}

/// The function, or null, that an entry of a segment gives.
pub(crate) fn reference(
    alloc: Global,
    m: &Module,
    imported: u32,
    e: &Expr,
) -> Result<Option<Ref>, Memory>
    requires source { ImportsFunctions m.now imported }
    requires reference { IsTrue (is_constant m.now FuncRef e.now) }
    ensures { IfOk result (λ r. r ≡ constant_reference m.now e.now) }
{
    match value(alloc, m, imported, e)? {
        Value::Num(_) => Ok(None),
        Value::Func(r) => Ok(r),
    }
}

fn global(alloc: Global, m: &Module, imported: u32, g: &GlobalDef) -> Result<Value, Memory>
    requires source { ImportsFunctions m.now imported }
    requires fits { IsTrue (global_fits m.now g.now) }
    ensures { IfOk result (λ v. v ≡ global_value m.now g.now) }
{
    value(alloc, m, imported, &g.init)
}

/// The values of the globals that the module defines.
pub(crate) fn globals_of(alloc: Global, m: &Module, imported: u32) -> Result<Vec<Value>, Memory>
    requires { ImportsFunctions m.now imported }
    ensures { IfOk result (λ v. v.items ≡ map (global_value m.now) m.now.globals) }
{
    let mut values = Vec::new(alloc);
    for g in m.globals.items() {
        values.push(global(alloc, m, imported, g)?)?;
    }
    Ok(values)
}
