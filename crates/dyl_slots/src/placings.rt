// What a member's active element segments place on the shared table.
ghost use Rattle.std.specs.Prelude.{◌≡◌, ◌<◌, ◌++◌, map, length, slice_get, IsTrue, IfOk, OnOk, Some, None};
ghost use Rattle.std.specs.List.{list_all};
ghost use Rattle.wasm_form.specs.declared.types.ValType.TheVariants.{I32, FuncRef};
ghost use Rattle.spec_loading.specs.spec_binary.IndexSpaces.{imports_of, globals_in, tables_in};
ghost use Rattle.spec_loading.specs.spec_validation.Faults.{is_constant, items_fit, elem_fits};
ghost use Rattle.spec_loading.specs.spec_runtime.Constants.{constant_entry, constant_entries, constant_number, numbered_globals};
ghost use Rattle.dyl_imports.specs.Uses.{use_value};
ghost use Rattle.dyl_imports.specs.wasm_check.Constants.{AreOfTypes};
ghost use Rattle.dyl_slots.specs.Placings.{base_number, number_as, base_numbers, placed_at, placed_by, placings_by};
ghost use Rattle.dyl_slots.specs.Regions.{placing_value};

use crate::regions::Placing;
use dyl_imports::wasm_check::{Constant, constant};
use dyl_imports::{Use, use_of};
use std::alloc::Global;
use wasm_form::{Elem, ElemItems, ElemMode, Expr, Import, ImportDesc, List, Memory, Module, Ref};

// The bases of a member's regions, in memory and in the table.
#[derive(Clone, Copy)]
pub(crate) struct Bases {
    pub memory: u32,
    pub table: u32,
}

// The number of an imported global that stands for this: a base, or 0 for any other.
fn base_number(bases: Bases, stands_for: Use) -> u32
    ensures { result ≡ base_number bases (use_value stands_for) }
{
    match stands_for {
        Use::MemoryBase => bases.memory,
        Use::TableBase => bases.table,
        _ => 0,
    }
}

fn push_number(numbers: &mut Vec<u64>, bases: Bases, i: &Import) -> Result<(), Memory>
    ensures { OnOk result (numbers.new.items ≡ numbers.old.items ++ number_as bases i.now i.now.desc) }
{
    match i.desc {
        ImportDesc::Global(_) => {
            numbers.push(u64::from(base_number(bases, use_of(i))))?;
            Ok(())
        }
        ImportDesc::Func(_) | ImportDesc::Table(_) | ImportDesc::Space(_) => Ok(()),
    }
}

// The numbers of imported globals, in order.
pub(crate) fn base_numbers(
    alloc: Global,
    bases: Bases,
    imports: &[Import],
) -> Result<Vec<u64>, Memory>
    ensures { IfOk result (λ v. v.items ≡ base_numbers bases imports.now) }
{
    let mut numbers = Vec::new(alloc);
    for i in imports {
        push_number(&mut numbers, bases, i)?;
    }
    Ok(numbers)
}

// How many tables are imported.
fn imported_tables(imports: &[Import]) -> usize
    ensures { result ≡ length (imports_of tables_in imports.now) }
{
    let mut count = 0;
    for import in imports {
        match import.desc {
            ImportDesc::Table(_) => count += 1,
            ImportDesc::Func(_) | ImportDesc::Space(_) | ImportDesc::Global(_) => {}
        }
    }
    count
}

// What a member's numbers name: its functions, and its imported globals.
#[derive(Clone, Copy)]
pub(crate) struct Names<'a> {
    pub functions: &'a [Ref],
    pub globals: &'a [u64],
}

fn function(names: &Names, f: u32) -> Option<Ref>
    ensures { result ≡ slice_get names.now.functions.now f }
{
    names.functions.get(f as usize).copied()
}

// The functions of these numbers.
fn functions(alloc: Global, names: &Names, numbers: &[u32]) -> Result<Vec<Option<Ref>>, Memory>
    ensures { IfOk result (λ v. v.items ≡ map (slice_get names.now.functions.now) numbers.now) }
{
    let mut all = Vec::new(alloc);
    for f in numbers {
        all.push(function(names, *f))?;
    }
    Ok(all)
}

// The function, or null, that an expression gives.
fn entry(alloc: Global, m: &Module, names: &Names, e: &Expr) -> Result<Option<Ref>, Memory>
    requires numbers { length names.now.globals.now ≡ length (imports_of globals_in m.now.imports) }
    requires reference { IsTrue (is_constant m.now FuncRef e.now) }
    ensures { IfOk result (λ r. r ≡ constant_entry (slice_get names.now.functions.now) (numbered_globals names.now.globals.now) e.now) }
{
    match constant(alloc, m, e, names.globals)? {
        Constant::Num(_) | Constant::Func(None) => Ok(None),
        Constant::Func(Some(f)) => Ok(function(names, f)),
    }
}

fn entries(
    alloc: Global,
    m: &Module,
    names: &Names,
    items: &[Expr],
) -> Result<Vec<Option<Ref>>, Memory>
    requires numbers { length names.now.globals.now ≡ length (imports_of globals_in m.now.imports) }
    requires references { IsTrue (list_all (is_constant m.now FuncRef) items.now) }
    ensures { IfOk result (λ v. v.items ≡ map (constant_entry (slice_get names.now.functions.now) (numbered_globals names.now.globals.now)) items.now) }
{
    let mut all = Vec::new(alloc);
    for e in items {
        all.push(entry(alloc, m, names, e)?)?;
    }
    Ok(all)
}

// The references of a segment's items.
fn items(
    alloc: Global,
    m: &Module,
    names: &Names,
    items: &ElemItems,
) -> Result<Vec<Option<Ref>>, Memory>
    requires numbers { length names.now.globals.now ≡ length (imports_of globals_in m.now.imports) }
    requires fits { IsTrue (items_fit m.now items.now) }
    ensures { IfOk result (λ v. v.items ≡ constant_entries (slice_get names.now.functions.now) (numbered_globals names.now.globals.now) items.now) }
{
    match items {
        ElemItems::Funcs(numbers) => functions(alloc, names, numbers.items()),
        ElemItems::Exprs { items, .. } => entries(alloc, m, names, items.items()),
    }
}

// The index where an active segment goes.
fn offset(alloc: Global, m: &Module, names: &Names, e: &Expr) -> Result<u32, Memory>
    requires numbers { length names.now.globals.now ≡ length (imports_of globals_in m.now.imports) }
    requires types { AreOfTypes m.now names.now.globals.now }
    requires number { IsTrue (is_constant m.now I32 e.now) }
    ensures { IfOk result (λ at. constant_number (slice_get names.now.functions.now) (numbered_globals names.now.globals.now) e.now ≡ Some at) }
{
    match constant(alloc, m, e, names.globals)? {
        Constant::Num(n) => Ok(n as u32),
        Constant::Func(_) => unreachable!(),
    }
}

// What a segment with this offset places.
fn placing(
    alloc: Global,
    m: &Module,
    names: &Names,
    at: &Expr,
    references: &ElemItems,
) -> Result<Placing, Memory>
    requires numbers { length names.now.globals.now ≡ length (imports_of globals_in m.now.imports) }
    requires types { AreOfTypes m.now names.now.globals.now }
    requires number { IsTrue (is_constant m.now I32 at.now) }
    requires fits { IsTrue (items_fit m.now references.now) }
    ensures { IfOk result (λ p. placed_at (slice_get names.now.functions.now) (numbered_globals names.now.globals.now) references.now at.now ≡ Some (placing_value p)) }
{
    let index = offset(alloc, m, names, at)?;
    let list = items(alloc, m, names, references)?;
    Ok(Placing {
        at: index,
        items: List::of(list),
    })
}

// Adds what a segment places, if it is an active one on one of the first `tables` tables.
fn add_placing(
    alloc: Global,
    placings: &mut Vec<Placing>,
    m: &Module,
    names: &Names,
    tables: usize,
    e: &Elem,
) -> Result<(), Memory>
    requires numbers { length names.now.globals.now ≡ length (imports_of globals_in m.now.imports) }
    requires types { AreOfTypes m.now names.now.globals.now }
    requires fits { IsTrue (elem_fits m.now e.now) }
    ensures { OnOk result (map placing_value placings.new.items ≡ map placing_value placings.old.items ++ placed_by (slice_get names.now.functions.now) (numbered_globals names.now.globals.now) tables e.now) }
{
    match &e.mode {
        ElemMode::Active { table, offset } if (*table as usize) < tables => {
            let p = placing(alloc, m, names, offset, &e.items)?;
            placings.push(p)?;
            Ok(())
        }
        ElemMode::Active { .. } | ElemMode::Passive | ElemMode::Declarative => Ok(()),
    }
}

// What the active segments place on the shared table, in order.
pub(crate) fn placings_of(alloc: Global, m: &Module, names: &Names) -> Result<Vec<Placing>, Memory>
    requires numbers { length names.now.globals.now ≡ length (imports_of globals_in m.now.imports) }
    requires types { AreOfTypes m.now names.now.globals.now }
    requires fits { IsTrue (list_all (elem_fits m.now) m.now.elems) }
    ensures { IfOk result (λ v. map placing_value v.items ≡ placings_by (slice_get names.now.functions.now) (numbered_globals names.now.globals.now) m.now) }
{
    let tables = imported_tables(m.imports.items());
    let mut placings = Vec::new(alloc);
    for e in m.elems.items() {
        add_placing(alloc, &mut placings, m, names, tables, e)?;
    }
    Ok(placings)
}
