// Which part of a module is not valid (section 3.4).
ghost use Rattle.std.specs.Prelude.{◌≡◌, ◌&&◌, length, slice_get, nat_le, Some, None, if◌then◌else◌, IfSome, IfNone};
ghost use Rattle.std.specs.List.{list_all};
ghost use Rattle.spec_execution.specs.spec_binary.SameTypes as types;
ghost use Rattle.spec_execution.specs.spec_binary.Indices as indices;
ghost use Rattle.wasm_form.specs.declared.types.ValType.TheVariants.{FuncRef};
ghost use Rattle.spec_execution.specs.spec_binary.IndexSpaces.{function_space, table_space, memory_space};
ghost use Rattle.spec_execution.specs.spec_validation.Faults as validation;
ghost use Rattle.wasm_check.specs.Answers.{ChecksTo};
ghost use Rattle.wasm_check.specs.Spaces.{AreSpaces};

use crate::constants::is_constant;
use crate::names::are_distinct;
use crate::spaces::Spaces;
use spec_execution::spec_validation::{CheckFault, Field};
use std::alloc::Global;
use wasm_form::{
    Data, DataMode, Elem, ElemItems, ElemMode, ExportDesc, Expr, FuncType, ImportDesc, Limits,
    Module, TableType, ValType,
};

// The most entries that a table begins with.
const MOST_ENTRIES: u32 = 1_048_576;

// The most pages of a memory.
const MOST_PAGES: u32 = 65_536;

// The part of the module fits, or else it is the fault.
fn fits(holds: bool, field: Field) -> Result<(), CheckFault>
    ensures { ChecksTo result (validation.unless holds (CheckFault.BadModule field)) }
{
    if holds {
        Ok(())
    } else {
        Err(CheckFault::BadModule { field })
    }
}

fn is_type(m: &Module, t: u32) -> bool
    ensures { result ≡ validation.is_type m.now t }
{
    (t as usize) < m.types.items().len()
}

fn no_fewer(least: u32, most: Option<u32>) -> bool
    ensures { result ≡ validation.no_fewer least most }
{
    match most {
        None => true,
        Some(most) => least <= most,
    }
}

fn table_bounded(ty: &TableType) -> bool
    ensures { result ≡ validation.table_bounded ty.now }
{
    ty.limits.min <= MOST_ENTRIES && no_fewer(ty.limits.min, ty.limits.max)
}

fn max_fits(least: u32, most: u32, max: Option<u32>) -> bool
    ensures { result ≡ validation.max_fits least most max }
{
    match max {
        None => true,
        Some(max) => least <= max && max <= most,
    }
}

fn memory_bounded(limits: &Limits) -> bool
    ensures { result ≡ validation.memory_bounded limits.now }
{
    limits.min <= MOST_PAGES && max_fits(limits.min, MOST_PAGES, limits.max)
}

fn desc_fits(m: &Module, desc: &ImportDesc) -> bool
    ensures { result ≡ validation.desc_fits m.now desc.now }
{
    match desc {
        ImportDesc::Func(t) => is_type(m, *t),
        ImportDesc::Table(ty) => table_bounded(ty),
        ImportDesc::Space(limits) => memory_bounded(limits),
        ImportDesc::Global(_) => true,
    }
}

fn imports_fit(m: &Module) -> bool
    ensures { result ≡ list_all (validation.import_fits m.now) m.now.imports }
{
    m.imports
        .items()
        .iter()
        .all(|import| desc_fits(m, &import.desc))
}

fn functions_fit(m: &Module) -> bool
    ensures { result ≡ list_all (validation.is_type m.now) m.now.funcs }
{
    m.funcs.items().iter().all(|t| is_type(m, *t))
}

fn tables_fit(tables: &[TableType]) -> bool
    ensures { result ≡ list_all validation.table_bounded tables.now }
{
    tables.iter().all(|ty| table_bounded(ty))
}

fn memories_fit(memories: &[Limits]) -> bool
    ensures { result ≡ list_all validation.memory_bounded memories.now }
{
    memories.iter().all(|limits| memory_bounded(limits))
}

/// The number is a function's.
pub(crate) fn is_function(m: &Module, spaces: &Spaces, f: u32) -> bool
    requires { AreSpaces m.now spaces.now }
    ensures { result ≡ validation.is_function m.now f }
{
    (f as usize) < spaces.functions.len()
}

/// The two types are one.
pub(crate) fn same_type(t: ValType, u: ValType) -> bool
    ensures { result ≡ types.same_type t u }
{
    t as u8 == u as u8
}

fn globals_fit(m: &Module, spaces: &Spaces) -> bool
    requires { AreSpaces m.now spaces.now }
    ensures { result ≡ list_all (validation.global_fits m.now) m.now.globals }
{
    for global in m.globals.items() {
        if !is_constant(m, spaces, global.ty.value, &global.init) {
            return false;
        }
    }
    true
}

fn is_there(m: &Module, spaces: &Spaces, desc: &ExportDesc) -> bool
    requires { AreSpaces m.now spaces.now }
    ensures { result ≡ validation.is_there m.now desc.now }
{
    match desc {
        ExportDesc::Func(n) => is_function(m, spaces, *n),
        ExportDesc::Table(n) => (*n as usize) < spaces.tables.len(),
        ExportDesc::Space(n) => (*n as usize) < spaces.memories,
        ExportDesc::Global(n) => (*n as usize) < spaces.globals.len(),
    }
}

fn exports_fit(m: &Module, spaces: &Spaces) -> bool
    requires { AreSpaces m.now spaces.now }
    ensures { result ≡ list_all (validation.export_fits m.now) m.now.exports }
{
    for export in m.exports.items() {
        if !is_there(m, spaces, &export.desc) {
            return false;
        }
    }
    true
}

// The type of a function by its index.
fn function_type<'a>(m: &'a Module, functions: &[u32], f: u32) -> Option<&'a FuncType>
    requires { functions.now ≡ function_space m.now }
    ensures some { IfSome result (λ ty. indices.function_type m.now f ≡ Some ty.now) }
    ensures none { IfNone result (indices.function_type m.now f ≡ None) }
{
    match functions.get(f as usize) {
        Some(t) => m.types.items().get(*t as usize),
        None => None,
    }
}

fn is_nullary(ty: &FuncType) -> bool
    ensures { result ≡ indices.is_nullary ty.now }
{
    ty.params.items().is_empty() && ty.results.items().is_empty()
}

fn start_fits(m: &Module, spaces: &Spaces) -> bool
    requires { AreSpaces m.now spaces.now }
    ensures { result ≡ validation.start_fits m.now m.now.start }
{
    match m.start {
        None => true,
        Some(f) => match function_type(m, &spaces.functions, f) {
            Some(ty) => is_nullary(ty),
            None => false,
        },
    }
}

// A table of functions.
fn has_functions(m: &Module, spaces: &Spaces, table: u32) -> bool
    requires { AreSpaces m.now spaces.now }
    ensures { result ≡ validation.has_functions (slice_get (table_space m.now) table) }
{
    match spaces.tables.get(table as usize) {
        Some(t) => same_type(*t, ValType::FuncRef),
        None => false,
    }
}

fn elem_mode_fits(m: &Module, spaces: &Spaces, mode: &ElemMode) -> bool
    requires { AreSpaces m.now spaces.now }
    ensures { result ≡ validation.elem_mode_fits m.now mode.now }
{
    match mode {
        ElemMode::Active { table, offset } => {
            has_functions(m, spaces, *table) && is_constant(m, spaces, ValType::I32, offset)
        }
        ElemMode::Passive => true,
        ElemMode::Declarative => true,
    }
}

fn are_functions(m: &Module, spaces: &Spaces, functions: &[u32]) -> bool
    requires { AreSpaces m.now spaces.now }
    ensures { result ≡ list_all (validation.is_function m.now) functions.now }
{
    for f in functions {
        if !is_function(m, spaces, *f) {
            return false;
        }
    }
    true
}

fn are_references(m: &Module, spaces: &Spaces, items: &[Expr]) -> bool
    requires { AreSpaces m.now spaces.now }
    ensures { result ≡ list_all (validation.is_constant m.now FuncRef) items.now }
{
    for e in items {
        if !is_constant(m, spaces, ValType::FuncRef, e) {
            return false;
        }
    }
    true
}

fn items_fit(m: &Module, spaces: &Spaces, items: &ElemItems) -> bool
    requires { AreSpaces m.now spaces.now }
    ensures { result ≡ validation.items_fit m.now items.now }
{
    match items {
        ElemItems::Funcs(functions) => are_functions(m, spaces, functions.items()),
        ElemItems::Exprs { elem, items } => {
            same_type(*elem, ValType::FuncRef) && are_references(m, spaces, items.items())
        }
    }
}

fn elem_fits(m: &Module, spaces: &Spaces, elem: &Elem) -> bool
    requires { AreSpaces m.now spaces.now }
    ensures { result ≡ validation.elem_fits m.now elem.now }
{
    elem_mode_fits(m, spaces, &elem.mode) && items_fit(m, spaces, &elem.items)
}

fn elems_fit(m: &Module, spaces: &Spaces) -> bool
    requires { AreSpaces m.now spaces.now }
    ensures { result ≡ list_all (validation.elem_fits m.now) m.now.elems }
{
    for elem in m.elems.items() {
        if !elem_fits(m, spaces, elem) {
            return false;
        }
    }
    true
}

fn data_fits(m: &Module, spaces: &Spaces, segment: &Data) -> bool
    requires { AreSpaces m.now spaces.now }
    ensures { result ≡ validation.data_fits m.now segment.now }
{
    match &segment.mode {
        DataMode::Active { memory, offset } => {
            (*memory as usize) < spaces.memories && is_constant(m, spaces, ValType::I32, offset)
        }
        DataMode::Passive => true,
    }
}

fn datas_fit(m: &Module, spaces: &Spaces) -> bool
    requires { AreSpaces m.now spaces.now }
    ensures { result ≡ list_all (validation.data_fits m.now) m.now.datas }
{
    for segment in m.datas.items() {
        if !data_fits(m, spaces, segment) {
            return false;
        }
    }
    true
}

fn memories_bounded(m: &Module, spaces: &Spaces) -> bool
    requires { AreSpaces m.now spaces.now }
    ensures { result ≡ (nat_le (length (memory_space m.now)) 1 && list_all validation.memory_bounded m.now.memories) }
{
    spaces.memories <= 1 && memories_fit(m.memories.items())
}

/// The part of the module that is not valid.
pub(crate) fn fields_fit(alloc: Global, m: &Module, spaces: &Spaces) -> Result<(), CheckFault>
    requires { AreSpaces m.now spaces.now }
    ensures { ChecksTo result (validation.module_fault m.now) }
{
    fits(imports_fit(m), Field::Import)?;
    fits(functions_fit(m), Field::Function)?;
    fits(tables_fit(m.tables.items()), Field::Table)?;
    fits(memories_bounded(m, spaces), Field::Space)?;
    fits(globals_fit(m, spaces), Field::Global)?;
    let distinct = are_distinct(alloc, m.exports.items())?;
    fits(distinct && exports_fit(m, spaces), Field::Export)?;
    fits(start_fits(m, spaces), Field::Start)?;
    fits(elems_fit(m, spaces), Field::Element)?;
    fits(datas_fit(m, spaces), Field::Data)
}
