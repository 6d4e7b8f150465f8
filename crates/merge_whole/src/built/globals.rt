// The globals.
ghost use Rattle.std.specs.Prelude.{◌≡◌, ℕ, Some, ◌+◌, ◌≤◌, ◌<◌, ◌^◌, ◌++◌, ◌∷◌, [], true, cond, length, map, slice_get, unwrap_or, IfOk, OnOk};
ghost use Rattle.spec_reading.specs.spec_binary.IndexSpaces.{globals_in};
ghost use Rattle.spec_loading.specs.spec_linking.Slots.{cell_of_import, first_cells, memory_base, table_base, imported_number};
ghost use Rattle.merge_index.specs.Numbering.{starts_of};
ghost use Rattle.dyl_addresses.specs.Globals.{cell_named, cells_in, with_cells};
ghost use Rattle.merge_index.specs.Kept.{numbers_in};
ghost use Rattle.spec_loading.specs.spec_linking.Sets as sets;
ghost use Rattle.merge_module.specs.MergedModule.{with_loader, number_global, loader_globals, merged_globals};
ghost use Rattle.merge_whole.specs.GlobalDefs.{FitsIn, AreFit, bases_by, value_by, own_by, cells_by, globals_by, all_globals, zeros_for};

use crate::built::constants::{constant, constant_instr, zero_of};
use crate::built::elems::number_expr;
use dyl_addresses::bases_from;
use dyl_link::Linked;
use dyl_link::dyl_imports::{Use, use_of};
use dyl_link::dyl_search::Member;
use indexmap::IndexSet;
use merge_index::Numbers;
use spec_loading::{linked_code_is_there, linked_functions_are_typed, slots_fit};
use std::alloc::Global;
use wasm_form::{
    Expr, GlobalDef, GlobalType, Import, ImportDesc, List, Memory, Module, ValType, Value,
};

// An i32 that begins with this number, and may be set or may not.
fn number_global(alloc: Global, may_be_set: bool, k: u32) -> Result<GlobalDef, Memory>
    ensures { IfOk result (λ g. g ≡ number_global may_be_set k) }
{
    let init = number_expr(alloc, k)?;
    Ok(GlobalDef {
        ty: GlobalType {
            value: ValType::I32,
            mutable: may_be_set,
        },
        init,
    })
}

fn own_value(
    alloc: Global,
    linked: &Linked,
    m: u32,
    bases: &[Option<u32>],
    g: &GlobalDef,
) -> Result<Value, Memory>
    ensures { IfOk result (λ v. v ≡ value_by linked.now bases.now m g.now) }
{
    match constant(alloc, linked, m, bases, &g.init)? {
        Some(value) => Ok(value),
        None => Ok(zero_of(g.ty.value)),
    }
}

// A global that member m defines, where imported globals are these bases.
fn own_global(
    alloc: Global,
    linked: &Linked,
    n: &Numbers,
    bases: &[Option<u32>],
    m: u32,
    g: &GlobalDef,
) -> Result<GlobalDef, Memory>
    requires { FitsIn g.now.ty.value (value_by linked.now bases.now m g.now) }
    ensures { IfOk result (λ x. x ≡ own_by linked.now (numbers_in n.now) bases.now m g.now) }
{
    let value = own_value(alloc, linked, m, bases, g)?;
    let init = constant_instr(n, g.ty.value, value);
    Ok(GlobalDef {
        ty: g.ty,
        init: Expr {
            list: List::of(vec![in alloc; init]?),
        },
    })
}

fn put_own(
    to: &mut Vec<GlobalDef>,
    alloc: Global,
    linked: &Linked,
    n: &Numbers,
    bases: &[Option<u32>],
    m: u32,
    globals: &[GlobalDef],
) -> Result<(), Memory>
    requires { AreFit linked.now bases.now m globals.now }
    ensures { OnOk result (to.new.items ≡ to.old.items ++ map (own_by linked.now (numbers_in n.now) bases.now m) globals.now) }
{
    for g in globals {
        to.push(own_global(alloc, linked, n, bases, m, g)?)?;
    }
    Ok(())
}

// Whether a cell is a new one; it is known from then on.
fn is_new<'a>(
    cells: &mut IndexSet<(bool, &'a str)>,
    slot: bool,
    name: &'a str,
) -> Result<bool, Memory>
    ensures cells { OnOk result (cells_in cells.new.keys ≡ with_cells (cells_in cells.old.keys) (cell_named slot name.now ∷ [])) }
    ensures new { IfOk result (λ b. first_cells (cells_in cells.old.keys) (cell_named slot name.now ∷ []) ≡ cond b (cell_named slot name.now ∷ []) []) }
{
    let (_, added) = cells.insert_full((slot, name))?;
    Ok(added)
}

fn put_cell<'a>(
    to: &mut Vec<GlobalDef>,
    alloc: Global,
    cells: &mut IndexSet<(bool, &'a str)>,
    slot: bool,
    name: &'a str,
    value: u32,
) -> Result<(), Memory>
    ensures cells { OnOk result (cells_in cells.new.keys ≡ with_cells (cells_in cells.old.keys) (cell_named slot name.now ∷ [])) }
    ensures put { OnOk result (to.new.items ≡ to.old.items ++ map (λ c. number_global true value) (first_cells (cells_in cells.old.keys) (cell_named slot name.now ∷ []))) }
{
    let added = is_new(cells, slot, name)?;
    if !added {
        return Ok(());
    }
    to.push(number_global(alloc, true, value)?)?;
    Ok(())
}

// The cell that an import gives, if it is a new one, with this value.
fn put_import<'a>(
    to: &mut Vec<GlobalDef>,
    alloc: Global,
    cells: &mut IndexSet<(bool, &'a str)>,
    i: &'a Import,
    value: u32,
) -> Result<(), Memory>
    ensures cells { OnOk result (cells_in cells.new.keys ≡ with_cells (cells_in cells.old.keys) (cell_of_import i.now)) }
    ensures put { OnOk result (to.new.items ≡ to.old.items ++ map (λ c. number_global true value) (first_cells (cells_in cells.old.keys) (cell_of_import i.now))) }
{
    match use_of(i) {
        Use::DataCell => put_cell(to, alloc, cells, false, i.field.as_str(), value),
        Use::SlotCell => put_cell(to, alloc, cells, true, i.field.as_str(), value),
        _ => Ok(()),
    }
}

fn is_global(desc: &ImportDesc) -> u32
    ensures is { result ≡ length (globals_in desc.now) }
    ensures few { result ≤ 1 }
{
    match desc {
        ImportDesc::Global(_) => 1,
        _ => 0,
    }
}

fn cell_or_zero(linked: &Linked, m: u32, g: u32) -> u32
    ensures { result ≡ unwrap_or (imported_number linked.now m g) 0 }
{
    match linked.find_cell(m, g) {
        Some(value) => value,
        None => 0,
    }
}

// The cells of member m.
fn put_cells(
    to: &mut Vec<GlobalDef>,
    alloc: Global,
    linked: &Linked,
    m: u32,
    imports: &[Import],
) -> Result<(), Memory>
    requires { length imports.now < 2 ^ 32 }
    ensures { OnOk result (to.new.items ≡ to.old.items ++ cells_by linked.now m [] 0 imports.now) }
{
    let mut cells = IndexSet::new(alloc);
    let mut g: u32 = 0;
    for i in imports {
        let value = cell_or_zero(linked, m, g);
        put_import(to, alloc, &mut cells, i, value)?;
        let end = g + is_global(&i.desc);
        g = end;
    }
    Ok(())
}

// The bases of a member, its cells and its own globals.
fn put_member(
    to: &mut Vec<GlobalDef>,
    alloc: Global,
    linked: &Linked,
    n: &Numbers,
    m: u32,
    wasm: &Module,
) -> Result<(), Memory>
    requires member { m < length linked.now.set.members }
    requires short { length wasm.now.imports < 2 ^ 32 }
    requires fit { AreFit linked.now (bases_by linked.now m wasm.now) m wasm.now.globals }
    ensures { OnOk result (to.new.items ≡ to.old.items ++ globals_by linked.now (numbers_in n.now) m wasm.now) }
{
    let memory = linked.memory_base(m);
    let table = linked.table_base(m);
    let bases = bases_from(alloc, wasm.imports.items(), memory, table)?;
    to.push(number_global(alloc, false, memory)?)?;
    to.push(number_global(alloc, false, table)?)?;
    put_cells(to, alloc, linked, m, wasm.imports.items())?;
    put_own(
        to,
        alloc,
        linked,
        n,
        bases.as_slice(),
        m,
        wasm.globals.items(),
    )?;
    Ok(())
}

// The stack pointer, and then the globals of the members.
fn all_globals(alloc: Global, linked: &Linked, n: &Numbers) -> Result<Vec<GlobalDef>, Memory>
    requires fit { (m : ℕ) (x : sets.Member) → slice_get linked.now.set.members m ≡ Some x → AreFit linked.now (bases_by linked.now m x.wasm) m x.wasm.globals }
    ensures { IfOk result (λ v. v.items ≡ all_globals linked.now (numbers_in n.now)) }
{
    let mut list = Vec::new(alloc);
    list.push(number_global(alloc, true, linked.plan().stack_top())?)?;
    for m in 0..linked.member_count() {
        let wasm = linked.member(m).checked.module();
        put_member(&mut list, alloc, linked, n, m, wasm)?;
    }
    Ok(list)
}

// A global that begins with 0 for each member.
fn put_zeros(to: &mut Vec<GlobalDef>, alloc: Global, members: &[Member]) -> Result<(), Memory>
    ensures { OnOk result (to.new.items ≡ to.old.items ++ zeros_for members.now) }
{
    for _member in members {
        to.push(number_global(alloc, true, 0)?)?;
    }
    Ok(())
}

// Where a member uses the loader, the number of the last error, how many members are promoted, and the place of each among these.
fn put_loader(to: &mut Vec<GlobalDef>, alloc: Global, linked: &Linked) -> Result<(), Memory>
    ensures { OnOk result (to.new.items ≡ to.old.items ++ with_loader linked.now (loader_globals linked.now)) }
{
    if linked.uses_loader() {
        to.push(number_global(alloc, true, 0)?)?;
        to.push(number_global(alloc, true, 0)?)?;
        put_zeros(to, alloc, linked.members())?;
    }
    Ok(())
}

// The globals of the merged module, and the number of the first guard.
pub(crate) fn merged_globals(
    alloc: Global,
    linked: &Linked,
    n: &Numbers,
) -> Result<(List<GlobalDef>, u32), Memory>
    ensures globals { IfOk result (λ x. x.0 ≡ merged_globals linked.now (numbers_in n.now)) }
    ensures few { IfOk result (λ x. x.1 < 2 ^ 30) }
    ensures guards { IfOk result (λ x. x.1 ≡ (starts_of linked.now).guards) }
{
    linked.links();
    linked.has_few_pages();
    linked_code_is_there();
    linked_functions_are_typed();
    slots_fit();
    let mut list = all_globals(alloc, linked, n)?;
    let guard = list.len() as u32;
    put_zeros(&mut list, alloc, linked.members())?;
    put_loader(&mut list, alloc, linked)?;
    Ok((List::of(list), guard))
}
