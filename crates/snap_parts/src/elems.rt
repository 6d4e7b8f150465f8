// Element segments.
ghost use Rattle.std.specs.Prelude.{◌≡◌, ◌≤◌, ◌<◌, ◌^◌, ◌++◌, length, map, IfOk, OnOk};
ghost use Rattle.spec_loading.specs.spec_binary.IndexSpaces.{function_space};
ghost use Rattle.merge_match.specs.Renumbering.{table_instance};
ghost use Rattle.merge_index.specs.Kept.{numbers_in};
ghost use Rattle.snap_module.specs.Held.{below, declared_elem};
ghost use Rattle.snap_parts.specs.Zips.{zip_by, elem_by, is_left};
ghost use Rattle.snap_parts.specs.Sections.{TablesAlone, ElemsHeld};

use crate::room::has_room;
use crate::tables::{put_tables, tables_gap};
use merge_index::Numbers;
use std::alloc::Global;
use wasm_check::imported_functions;
use wasm_copies::copied_items;
use wasm_form::{Elem, ElemItems, ElemMode, List, Memory, Module, Ref};
use wasm_space::Slots;

// ---- those of the merged module

fn elem_by(alloc: Global, e: &Elem, left: bool) -> Result<Elem, Memory>
    ensures { IfOk result (λ x. x ≡ elem_by e.now left) }
{
    if !left {
        return Ok(Elem {
            mode: ElemMode::Passive,
            items: ElemItems::Funcs(List::of(Vec::new(alloc))),
        });
    }
    let items = copied_items(alloc, &e.items)?;
    Ok(Elem {
        mode: ElemMode::Passive,
        items,
    })
}

fn elems_left(alloc: Global, elems: &[Elem], left: &[bool]) -> Result<Vec<Elem>, Memory>
    ensures { IfOk result (λ x. x.items ≡ zip_by elem_by elems.now left.now) }
{
    let mut list = Vec::new(alloc);
    let count = elems.len().min(left.len());
    for k in 0..count {
        list.push(elem_by(alloc, &elems[k], left[k])?)?;
    }
    Ok(list)
}

fn put_lefts(to: &mut Vec<bool>, elems: &[Vec<Option<Ref>>]) -> Result<(), Memory>
    ensures { OnOk result (to.new.items ≡ to.old.items ++ map is_left (map (λ v. v.items) elems.now)) }
{
    for e in elems {
        to.push(!e.is_empty())?;
    }
    Ok(())
}

// Of each segment whether it is left: of those of the store, and of those behind them.
pub(crate) fn all_left(
    alloc: Global,
    elems: &[Vec<Option<Ref>>],
    more: &[bool],
) -> Result<Vec<bool>, Memory>
    ensures { IfOk result (λ v. v.items ≡ map is_left (map (λ v. v.items) elems.now) ++ more.now) }
{
    let mut left = Vec::new(alloc);
    put_lefts(&mut left, elems)?;
    left.extend_from_slice(more)?;
    Ok(left)
}

// ---- the segment that names each function

fn function_count(m: &Module) -> Result<u32, Memory>
    ensures { IfOk result (λ n. n ≡ length (function_space m.now)) }
{
    let imported = imported_functions(m.imports.items());
    let own = m.funcs.items().len();
    has_room(imported)?;
    has_room(own)?;
    Ok((imported + own) as u32)
}

// The numbers below this, the greatest first.
fn below(alloc: Global, n: u32) -> Result<List<u32>, Memory>
    ensures { IfOk result (λ list. list ≡ below n) }
{
    let mut list = Vec::new(alloc);
    let mut left = n;
    while left > 0 {
        left -= 1;
        list.push(left)?;
    }
    Ok(List::of(list))
}

fn declared_elem(alloc: Global, m: &Module) -> Result<Elem, Memory>
    ensures declared { IfOk result (λ e. e ≡ declared_elem m.now) }
    ensures few { OnOk result (length (function_space m.now) < 2 ^ 32) }
{
    let count = function_count(m)?;
    let list = below(alloc, count)?;
    Ok(Elem {
        mode: ElemMode::Declarative,
        items: ElemItems::Funcs(list),
    })
}

// ---- all of them

// The segments of tables.
fn table_elems(alloc: Global, numbers: &Numbers, tables: &[Slots]) -> Result<Vec<Elem>, Memory>
    ensures written { IfOk result (λ v. TablesAlone (map (table_instance (numbers_in numbers.now)) tables.now) v.items) }
    ensures few { IfOk result (λ v. length v.items ≤ 2 ^ 30) }
    ensures few_tables { OnOk result (length tables.now ≤ 2 ^ 30) }
{
    has_room(tables.len())?;
    let gap = tables_gap(tables);
    let mut list = Vec::new(alloc);
    put_tables(&mut list, alloc, numbers, tables, gap)?;
    has_room(list.len())?;
    Ok(list)
}

/// The element segments of the module, where of each of the merged module is said whether it is left.
pub(crate) fn held_elems(
    alloc: Global,
    numbers: &Numbers,
    m: &Module,
    left: &[bool],
    tables: &[Slots],
) -> Result<List<Elem>, Memory>
    ensures { IfOk result (λ x. ElemsHeld m.now left.now (map (table_instance (numbers_in numbers.now)) tables.now) x) }
{
    has_room(left.len())?;
    let mut list = elems_left(alloc, m.elems.items(), left)?;
    let mut applied = table_elems(alloc, numbers, tables)?;
    let declared = declared_elem(alloc, m)?;
    list.append(&mut applied)?;
    list.push(declared)?;
    Ok(List::of(list))
}
