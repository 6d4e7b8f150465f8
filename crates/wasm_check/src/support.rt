// What is not supported: other types than i32, i64 and funcref, and floats.
ghost use Rattle.std.specs.Prelude.{◌≡◌, ◌<◌, ◌^◌, length, slice_get, IfOk};
ghost use Rattle.std.specs.List.{list_all};
ghost use Rattle.spec_execution.specs.spec_validation.Faults as validation;
ghost use Rattle.wasm_check.specs.Answers.{ChecksTo};
ghost use Rattle.wasm_check.specs.Inside.{supported_or, AreSupported};

use spec_execution::spec_validation::{CheckFault, Place};
use std::alloc::Global;
use wasm_form::{
    Elem, ElemItems, FuncType, GlobalDef, ImportDesc, Memory, Module, TableType, ValType,
};

pub(crate) fn is_supported(t: ValType) -> bool
    ensures { result ≡ validation.is_supported t }
{
    match t {
        ValType::I32 | ValType::I64 | ValType::FuncRef => true,
        _ => false,
    }
}

pub(crate) fn are_supported(types: &[ValType]) -> bool
    ensures { result ≡ list_all validation.is_supported types.now }
{
    types.iter().all(|t| is_supported(*t))
}

fn is_function_supported(f: &FuncType) -> bool
    ensures { result ≡ validation.is_function_supported f.now }
{
    are_supported(f.params.items()) && are_supported(f.results.items())
}

/// Which of the types of the module are supported.
pub(crate) fn supported_types(alloc: Global, m: &Module) -> Result<Vec<bool>, Memory>
    ensures { IfOk result (λ types. AreSupported m.now types.items) }
{
    let mut types = Vec::new(alloc);
    for f in m.types.items() {
        types.push(is_function_supported(f))?;
    }
    Ok(types)
}

fn is_true_or_past(types: &[bool], t: u32) -> bool
    ensures { result ≡ supported_or (slice_get types.now t) }
{
    match types.get(t as usize) {
        Some(supported) => *supported,
        None => true,
    }
}

// A type number out of range is passed over.
pub(crate) fn type_supported(m: &Module, types: &[bool], t: u32) -> bool
    requires { AreSupported m.now types.now }
    ensures { result ≡ validation.type_supported m.now t }
{
    let _module = m;
    is_true_or_past(types, t)
}

// The type that stands there is supported, or else it is the fault.
pub(crate) fn supported_at(holds: bool, place: Place) -> Result<(), CheckFault>
    ensures { ChecksTo result (validation.unless holds (CheckFault.UnsupportedType place)) }
{
    if holds {
        Ok(())
    } else {
        Err(CheckFault::UnsupportedType { place })
    }
}

fn desc_supported(m: &Module, types: &[bool], desc: &ImportDesc) -> bool
    requires { AreSupported m.now types.now }
    ensures { result ≡ validation.desc_supported m.now desc.now }
{
    match desc {
        ImportDesc::Func(t) => type_supported(m, types, *t),
        ImportDesc::Table(ty) => is_supported(ty.elem),
        ImportDesc::Space(_) => true,
        ImportDesc::Global(ty) => is_supported(ty.value),
    }
}

pub(crate) fn imports_supported(m: &Module, types: &[bool]) -> Result<(), CheckFault>
    requires types { AreSupported m.now types.now }
    requires count { length m.now.imports < 2 ^ 32 }
    ensures { ChecksTo result (validation.first_in (validation.import_supported m.now) 0 m.now.imports) }
{
    let imports = m.imports.items();
    for n in 0..imports.len() {
        supported_at(
            desc_supported(m, types, &imports[n].desc),
            Place::Import(n as u32),
        )?;
    }
    Ok(())
}

pub(crate) fn functions_supported(m: &Module, types: &[bool]) -> Result<(), CheckFault>
    requires types { AreSupported m.now types.now }
    requires count { length m.now.funcs < 2 ^ 32 }
    ensures { ChecksTo result (validation.first_in (validation.function_supported m.now) 0 m.now.funcs) }
{
    let funcs = m.funcs.items();
    for n in 0..funcs.len() {
        supported_at(
            type_supported(m, types, funcs[n]),
            Place::Function(n as u32),
        )?;
    }
    Ok(())
}

pub(crate) fn tables_supported(tables: &[TableType]) -> Result<(), CheckFault>
    requires { length tables.now < 2 ^ 32 }
    ensures { ChecksTo result (validation.first_in validation.table_supported 0 tables.now) }
{
    for n in 0..tables.len() {
        supported_at(is_supported(tables[n].elem), Place::Table(n as u32))?;
    }
    Ok(())
}

pub(crate) fn globals_supported(globals: &[GlobalDef]) -> Result<(), CheckFault>
    requires { length globals.now < 2 ^ 32 }
    ensures { ChecksTo result (validation.first_in validation.global_supported 0 globals.now) }
{
    for n in 0..globals.len() {
        supported_at(is_supported(globals[n].ty.value), Place::Global(n as u32))?;
    }
    Ok(())
}

// The type of the items of an element segment.
pub(crate) fn item_type(items: &ElemItems) -> ValType
    ensures { result ≡ validation.item_type items.now }
{
    match items {
        ElemItems::Funcs(_) => ValType::FuncRef,
        ElemItems::Exprs { elem, .. } => *elem,
    }
}

pub(crate) fn elems_supported(elems: &[Elem]) -> Result<(), CheckFault>
    requires { length elems.now < 2 ^ 32 }
    ensures { ChecksTo result (validation.first_in validation.elem_supported 0 elems.now) }
{
    for n in 0..elems.len() {
        supported_at(
            is_supported(item_type(&elems[n].items)),
            Place::Element(n as u32),
        )?;
    }
    Ok(())
}
