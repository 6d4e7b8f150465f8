// The addresses of globals.
ghost use Rattle.std.specs.Prelude.{◌≡◌, ◌<◌, ◌≤◌, ◌+◌, ◌-◌, ◌^◌, ◌++◌, ◌∷◌, [], length, map, Some, IfOk, OnOk};
ghost use Rattle.std.specs.List.{range_with_len};
ghost use Rattle.spec_loading.specs.spec_binary.IndexSpaces.{globals_in};
ghost use Rattle.spec_loading.specs.spec_linking.Imports as imports;
ghost use Rattle.spec_loading.specs.spec_linking.Slots.{cell_of_import};
ghost use Rattle.dyl_addresses.specs.Sets.{module_of};
ghost use Rattle.dyl_addresses.specs.Globals.{cell_named, cells_in, with_cells, cell_place, global_as, globals_from, cells_from, global_list, globals_end, globals_ends, global_lists};

use crate::lists::end_of;
use dyl_link::dyl_imports::{Use, use_of};
use dyl_link::dyl_search::Member;
use indexmap::IndexSet;
use std::alloc::Global;
use wasm_form::{Import, ImportDesc, List, Memory, Module};

// The address of a cell, by whether it is of a slot, and its name.
fn cell_place<'a>(
    cells: &mut IndexSet<(bool, &'a str)>,
    first: u32,
    slot: bool,
    name: &'a str,
) -> Result<Option<u32>, Memory>
    requires { first + length cells.old.keys < 2 ^ 32 }
    ensures cells { OnOk result (cells_in cells.new.keys ≡ with_cells (cells_in cells.old.keys) (cell_named slot name.now ∷ [])) }
    ensures place { IfOk result (λ a. a ≡ cell_place first (cells_in cells.new.keys) (cell_named slot name.now)) }
{
    let (index, _) = cells.insert_full((slot, name))?;
    Ok(Some(end_of(first, index)))
}

// The address of the global that an import gives, if it has one.
fn global_place<'a>(
    cells: &mut IndexSet<(bool, &'a str)>,
    base: u32,
    i: &'a Import,
) -> Result<Option<u32>, Memory>
    requires { base + 2 + length cells.old.keys < 2 ^ 32 }
    ensures cells { OnOk result (cells_in cells.new.keys ≡ with_cells (cells_in cells.old.keys) (cell_of_import i.now)) }
    ensures place { IfOk result (λ a. a ≡ global_as base (cells_in cells.new.keys) i.now (imports.use_of i.now)) }
{
    match use_of(i) {
        Use::StackPointer => Ok(Some(0)),
        Use::MemoryBase => Ok(Some(base)),
        Use::TableBase => Ok(Some(base + 1)),
        Use::DataCell => cell_place(cells, base + 2, false, i.field.as_str()),
        Use::SlotCell => cell_place(cells, base + 2, true, i.field.as_str()),
        _ => Ok(None),
    }
}

fn put_global(
    to: &mut Vec<Option<u32>>,
    desc: ImportDesc,
    address: Option<u32>,
) -> Result<(), Memory>
    ensures { OnOk result (to.new.items ≡ to.old.items ++ map (λ ty. address) (globals_in desc)) }
{
    if let ImportDesc::Global(_) = desc {
        to.push(address)?;
    }
    Ok(())
}

// The addresses of the globals that imports give, and the number of cells.
fn imported_globals(
    alloc: Global,
    imports: &[Import],
    base: u32,
) -> Result<(Vec<Option<u32>>, usize), Memory>
    requires { base + 2 + length (cells_from [] imports.now) < 2 ^ 32 }
    ensures addresses { IfOk result (λ x. x.0.items ≡ globals_from base [] imports.now) }
    ensures cells { IfOk result (λ x. x.1 ≡ length (cells_from [] imports.now)) }
{
    let mut cells = IndexSet::new(alloc);
    let mut list = Vec::new(alloc);
    for i in imports {
        let address = global_place(&mut cells, base, i)?;
        put_global(&mut list, i.desc, address)?;
    }
    Ok((list, cells.len()))
}

// The addresses from one on, up to another.
fn put_own(to: &mut Vec<Option<u32>>, start: u32, end: u32) -> Result<(), Memory>
    requires { start ≤ end }
    ensures { OnOk result (to.new.items ≡ to.old.items ++ map Some (range_with_len start (end - start))) }
{
    for a in start..end {
        to.push(Some(a))?;
    }
    Ok(())
}

// The addresses of a member's globals, and the address after them.
fn global_list(alloc: Global, wasm: &Module, base: u32) -> Result<(List<Option<u32>>, u32), Memory>
    requires { globals_end base wasm.now < 2 ^ 32 }
    ensures addresses { IfOk result (λ x. x.0 ≡ global_list base wasm.now) }
    ensures end { IfOk result (λ x. x.1 ≡ globals_end base wasm.now) }
{
    let (mut list, cells) = imported_globals(alloc, wasm.imports.items(), base)?;
    let first = end_of(base + 2, cells);
    let end = end_of(first, wasm.globals.items().len());
    put_own(&mut list, first, end)?;
    Ok((List::of(list), end))
}

// Those of each member, where the first begins at a base.
pub(crate) fn global_lists(
    alloc: Global,
    members: &[Member],
    base: u32,
) -> Result<Vec<List<Option<u32>>>, Memory>
    requires { globals_ends base (map module_of members.now) < 2 ^ 32 }
    ensures { IfOk result (λ v. v.items ≡ global_lists base (map module_of members.now)) }
{
    let mut lists = Vec::new(alloc);
    let mut next = base;
    for member in members {
        let (list, end) = global_list(alloc, member.checked.module(), next)?;
        lists.push(list)?;
        next = end;
    }
    Ok(lists)
}
