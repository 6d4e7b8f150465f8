// Active segments are applied as code would do it (section 4.5.4).
ghost use Rattle.std.specs.Prelude.{◌≡◌, ◌<◌, length, map, IsTrue};
ghost use Rattle.spec_safety.specs.spec_binary.WellFormed.{IsShort, IsFormedItems};
ghost use Rattle.spec_safety.specs.spec_validation.Faults.{elem_fits, data_fits};
ghost use Rattle.spec_safety.specs.spec_runtime.Memories.{initialized};
ghost use Rattle.spec_safety.specs.spec_runtime.Tables.{entries_initialized};
ghost use Rattle.spec_safety.specs.spec_execution.Instances.{constant_offset};
ghost use Rattle.spec_safety.specs.spec_execution.Segments.{items_count, elem_effects, data_effects, all_effects};
ghost use Rattle.spec_safety.specs.Laws.{IsAlone};
ghost use Rattle.wasm_instance.specs.Opening.{ElementsApply, BytesApply, Moves};

use crate::constants::offset;
use spec_safety::spec_execution::SingleFault;
use std::alloc::Global;
use wasm_form::{Data, DataMode, Elem, ElemItems, ElemMode, Module, Ref};
use wasm_space::{Slots, Space};

// How many entries the module gives a segment.
fn count(items: &ElemItems) -> u32
    requires { IsFormedItems items.now }
    ensures { result ≡ items_count items.now }
{
    match items {
        ElemItems::Funcs(numbers) => numbers.items().len() as u32,
        ElemItems::Exprs { items, .. } => items.items().len() as u32,
    }
}

// Writes the first `n` entries of a segment to a table, from an index on, and drops the segment.
fn move_entries(
    entries: &mut Vec<Option<Ref>>,
    n: u32,
    table: &mut Slots,
    at: u32,
) -> Result<(), SingleFault>
    ensures { Moves (entries_initialized table.old at entries.old.items 0 n) (table.old, entries.old.items) result (table.new, entries.new.items) }
{
    match table.init(at, entries, 0, n) {
        Ok(()) => {
            entries.clear();
            Ok(())
        }
        Err(_) => Err(SingleFault::SegmentTrap),
    }
}

// Writes the first `n` bytes of a segment to the memory, from an address on, and drops the segment.
fn move_bytes(bytes: &mut &[u8], n: u32, memory: &mut Space, at: u32) -> Result<(), SingleFault>
    ensures { Moves (initialized memory.old at bytes.old.now 0 n) (memory.old, bytes.old.now) result (memory.new, bytes.new.now) }
{
    match memory.init(at, bytes, 0, n) {
        Ok(()) => {
            *bytes = &[];
            Ok(())
        }
        Err(_) => Err(SingleFault::SegmentTrap),
    }
}

// Applies an element segment by its number, where it is active.
fn apply_elem(
    alloc: Global,
    m: &Module,
    e: u32,
    segment: &Elem,
    tables: &mut [Slots],
    elems: &mut [Vec<Option<Ref>>],
) -> Result<(), SingleFault>
    requires alone { IsAlone m.now }
    requires fits { IsTrue (elem_fits m.now segment.now) }
    requires short { IsFormedItems segment.now.items }
    requires tables { length tables.old ≡ length m.now.tables }
    requires elems { e < length elems.old }
    ensures applied { ElementsApply m.now (elem_effects (constant_offset m.now) e segment.now) tables.old (map (λ v. v.items) elems.old) result tables.new (map (λ v. v.items) elems.new) }
    ensures tables { length tables.new ≡ length tables.old }
    ensures elems { length elems.new ≡ length elems.old }
{
    match &segment.mode {
        ElemMode::Active { table, offset: at } => {
            let at = offset(alloc, m, at)?;
            let n = count(&segment.items);
            move_entries(&mut elems[e as usize], n, &mut tables[*table as usize], at)
        }
        ElemMode::Passive | ElemMode::Declarative => Ok(()),
    }
}

/// Applies the active element segments, in order.
pub(crate) fn apply_elems(
    alloc: Global,
    m: &Module,
    tables: &mut [Slots],
    elems: &mut [Vec<Option<Ref>>],
) -> Result<(), SingleFault>
    requires alone { IsAlone m.now }
    requires tables { length tables.old ≡ length m.now.tables }
    requires elems { length elems.old ≡ length m.now.elems }
    ensures applied { ElementsApply m.now (all_effects (elem_effects (constant_offset m.now)) 0 m.now.elems) tables.old (map (λ v. v.items) elems.old) result tables.new (map (λ v. v.items) elems.new) }
    ensures tables { length tables.new ≡ length tables.old }
    ensures elems { length elems.new ≡ length elems.old }
{
    let segments = m.elems.items();
    for e in 0..segments.len() as u32 {
        apply_elem(alloc, m, e, &segments[e as usize], tables, elems)?;
    }
    Ok(())
}

// Applies a data segment by its number, where it is active.
fn apply_data(
    alloc: Global,
    m: &Module,
    d: u32,
    segment: &Data,
    memory: &mut Space,
    datas: &mut [&[u8]],
) -> Result<(), SingleFault>
    requires alone { IsAlone m.now }
    requires fits { IsTrue (data_fits m.now segment.now) }
    requires short { IsShort segment.now.bytes }
    requires datas { d < length datas.old }
    ensures applied { BytesApply m.now (data_effects (constant_offset m.now) d segment.now) memory.old (map (λ d. d.now) datas.old) result memory.new (map (λ d. d.now) datas.new) }
    ensures datas { length datas.new ≡ length datas.old }
{
    match &segment.mode {
        DataMode::Active { offset: at, .. } => {
            let at = offset(alloc, m, at)?;
            let n = segment.bytes.items().len() as u32;
            move_bytes(&mut datas[d as usize], n, memory, at)
        }
        DataMode::Passive => Ok(()),
    }
}

/// Applies the active data segments, in order.
pub(crate) fn apply_datas(
    alloc: Global,
    m: &Module,
    memory: &mut Space,
    datas: &mut [&[u8]],
) -> Result<(), SingleFault>
    requires alone { IsAlone m.now }
    requires datas { length datas.old ≡ length m.now.datas }
    ensures applied { BytesApply m.now (all_effects (data_effects (constant_offset m.now)) 0 m.now.datas) memory.old (map (λ d. d.now) datas.old) result memory.new (map (λ d. d.now) datas.new) }
    ensures datas { length datas.new ≡ length datas.old }
{
    let segments = m.datas.items();
    for d in 0..segments.len() as u32 {
        apply_data(alloc, m, d, &segments[d as usize], memory, datas)?;
    }
    Ok(())
}
