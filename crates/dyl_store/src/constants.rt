// The values of constant expressions of a member (WebAssembly Core 2.0, section 3.3.10).
ghost use Rattle.std.specs.Prelude.{◌≡◌, ◌++◌, map, IfOk, OnOk};
ghost use Rattle.spec_loading.specs.spec_execution.Values.{zero_of};
ghost use Rattle.dyl_store.specs.Opening.{functions_of, entry_with, items_with, global_with, elem_with};

use dyl_addresses::value;
use std::alloc::Global;
use wasm_form::{Elem, ElemItems, ElemMode, Expr, GlobalDef, Memory, Ref, ValType, Value};

// What the numbers of a member name: its functions, and the bases that its imported globals are.
#[derive(Clone, Copy)]
pub(crate) struct Names<'a> {
    pub functions: &'a [Ref],
    pub bases: &'a [Option<u32>],
}

fn function(names: &Names, f: u32) -> Option<Ref>
    ensures { result ≡ functions_of names.now f }
{
    names.functions.get(f as usize).copied()
}

// The function, or null, that an expression gives.
fn entry(alloc: Global, names: &Names, e: &Expr) -> Result<Option<Ref>, Memory>
    ensures { IfOk result (λ r. r ≡ entry_with names.now e.now) }
{
    match value(alloc, names.functions, names.bases, e)? {
        Some(Value::Func(r)) => Ok(r),
        Some(Value::Num(_)) | None => Ok(None),
    }
}

// The functions of these numbers.
fn functions(alloc: Global, names: &Names, numbers: &[u32]) -> Result<Vec<Option<Ref>>, Memory>
    ensures { IfOk result (λ v. v.items ≡ map (functions_of names.now) numbers.now) }
{
    let mut all = Vec::new(alloc);
    for f in numbers {
        all.push(function(names, *f))?;
    }
    Ok(all)
}

// What these expressions give.
fn entries(alloc: Global, names: &Names, items: &[Expr]) -> Result<Vec<Option<Ref>>, Memory>
    ensures { IfOk result (λ v. v.items ≡ map (entry_with names.now) items.now) }
{
    let mut all = Vec::new(alloc);
    for e in items {
        all.push(entry(alloc, names, e)?)?;
    }
    Ok(all)
}

// The references of a segment's items.
fn items(alloc: Global, names: &Names, items: &ElemItems) -> Result<Vec<Option<Ref>>, Memory>
    ensures { IfOk result (λ v. v.items ≡ items_with names.now items.now) }
{
    match items {
        ElemItems::Funcs(numbers) => functions(alloc, names, numbers.items()),
        ElemItems::Exprs { items, .. } => entries(alloc, names, items.items()),
    }
}

// The entries with which a segment begins: a declarative one is empty.
fn elem(alloc: Global, names: &Names, segment: &Elem) -> Result<Vec<Option<Ref>>, Memory>
    ensures { IfOk result (λ v. v.items ≡ elem_with names.now segment.now) }
{
    match &segment.mode {
        ElemMode::Active { .. } | ElemMode::Passive => items(alloc, names, &segment.items),
        ElemMode::Declarative => Ok(Vec::new(alloc)),
    }
}

// Adds the element segments of a member.
pub(crate) fn put_elems(
    alloc: Global,
    to: &mut Vec<Vec<Option<Ref>>>,
    names: &Names,
    segments: &[Elem],
) -> Result<(), Memory>
    ensures { OnOk result (map (λ v. v.items) to.new.items ≡ map (λ v. v.items) to.old.items ++ map (elem_with names.now) segments.now) }
{
    for segment in segments {
        to.push(elem(alloc, names, segment)?)?;
    }
    Ok(())
}

// The value that a variable of a type begins with.
fn zero_of(ty: ValType) -> Value
    ensures { result ≡ zero_of ty }
{
    match ty {
        ValType::I32 | ValType::I64 | ValType::F32 | ValType::F64 => Value::Num(0),
        ValType::FuncRef | ValType::ExternRef => Value::Func(None),
    }
}

fn global(alloc: Global, names: &Names, g: &GlobalDef) -> Result<Value, Memory>
    ensures { IfOk result (λ v. v ≡ global_with names.now g.now) }
{
    match value(alloc, names.functions, names.bases, &g.init)? {
        Some(v) => Ok(v),
        None => Ok(zero_of(g.ty.value)),
    }
}

// Adds the globals that a member defines.
pub(crate) fn put_globals(
    alloc: Global,
    to: &mut Vec<Value>,
    names: &Names,
    globals: &[GlobalDef],
) -> Result<(), Memory>
    ensures { OnOk result (to.new.items ≡ to.old.items ++ map (global_with names.now) globals.now) }
{
    for g in globals {
        to.push(global(alloc, names, g)?)?;
    }
    Ok(())
}
