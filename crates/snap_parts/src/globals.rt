// Globals, tables and the memory with what they hold.
ghost use Rattle.std.specs.Prelude.{◌≡◌, ◌≤◌, ◌^◌, ◌++◌, length, map, IfOk, OnOk};
ghost use Rattle.wasm_form.specs.declared.runtime.Value.TheVariants.{Num};
ghost use Rattle.merge_match.specs.Renumbering as renumbering;
ghost use Rattle.merge_match.specs.Renumbering.{value, table_instance};
ghost use Rattle.merge_index.specs.Kept.{numbers_in};
ghost use Rattle.snap_module.specs.Held.{held_globals, held_tables, held_memories, entry_exports};
ghost use Rattle.snap_parts.specs.Zips.{zip_by, global_by, table_by};

use crate::constants::{constant_instr, expr_of, value};
use crate::room::has_room;
use merge_index::Numbers;
use std::alloc::Global;
use wasm_form::{Export, ExportDesc, GlobalDef, Limits, List, Memory, TableType, Text, Value};
use wasm_space::{Slots, Space};

// ---- globals

fn put_values(to: &mut Vec<Value>, numbers: &Numbers, globals: &[Value]) -> Result<(), Memory>
    ensures { OnOk result (to.new.items ≡ to.old.items ++ map (value (numbers_in numbers.now)) globals.now) }
{
    for v in globals {
        to.push(value(numbers, *v))?;
    }
    Ok(())
}

fn put_numbers(to: &mut Vec<Value>, more: &[u32]) -> Result<(), Memory>
    ensures { OnOk result (to.new.items ≡ to.old.items ++ map Num more.now) }
{
    for k in more {
        to.push(Value::Num(u64::from(*k)))?;
    }
    Ok(())
}

// The values of all globals.
fn all_values(
    alloc: Global,
    numbers: &Numbers,
    globals: &[Value],
    more: &[u32],
) -> Result<Vec<Value>, Memory>
    ensures { IfOk result (λ v. v.items ≡ map (value (numbers_in numbers.now)) globals.now ++ map Num more.now) }
{
    let mut values = Vec::new(alloc);
    put_values(&mut values, numbers, globals)?;
    put_numbers(&mut values, more)?;
    Ok(values)
}

fn held_global(alloc: Global, g: &GlobalDef, v: Value) -> Result<GlobalDef, Memory>
    ensures { IfOk result (λ x. x ≡ global_by g.now v) }
{
    let init = expr_of(alloc, constant_instr(g.ty.value, v)?)?;
    Ok(GlobalDef { ty: g.ty, init })
}

fn with_values(
    alloc: Global,
    globals: &[GlobalDef],
    values: &[Value],
) -> Result<Vec<GlobalDef>, Memory>
    ensures { IfOk result (λ x. x.items ≡ zip_by global_by globals.now values.now) }
{
    let mut list = Vec::new(alloc);
    let count = globals.len().min(values.len());
    for k in 0..count {
        list.push(held_global(alloc, &globals[k], values[k])?)?;
    }
    Ok(list)
}

/// Each global begins with its value.
#[tactic(auto, using(crate::proofs::Zips::globals_zipped))]
pub(crate) fn held_globals(
    alloc: Global,
    numbers: &Numbers,
    globals: &[GlobalDef],
    now: &[Value],
    more: &[u32],
) -> Result<List<GlobalDef>, Memory>
    ensures held { IfOk result (λ x. x ≡ held_globals globals.now (map (value (numbers_in numbers.now)) now.now ++ map Num more.now)) }
    ensures few { OnOk result (length now.now ≤ 2 ^ 30) }
    ensures few_more { OnOk result (length more.now ≤ 2 ^ 30) }
{
    has_room(now.len())?;
    has_room(more.len())?;
    let values = all_values(alloc, numbers, now, more)?;
    let list = with_values(alloc, globals, &values)?;
    Ok(List::of(list))
}

// ---- tables and the memory

fn table_by(t: TableType, x: &Slots) -> TableType
    ensures { result ≡ table_by t x.now }
{
    TableType {
        elem: t.elem,
        limits: Limits {
            min: x.size(),
            max: t.limits.max,
        },
    }
}

fn with_sizes(alloc: Global, tables: &[TableType], now: &[Slots]) -> Result<Vec<TableType>, Memory>
    ensures { IfOk result (λ x. x.items ≡ zip_by table_by tables.now now.now) }
{
    let mut list = Vec::new(alloc);
    let count = tables.len().min(now.len());
    for k in 0..count {
        list.push(table_by(tables[k], &now[k]))?;
    }
    Ok(list)
}

/// Each table begins with as many entries as there are, whatever the numbers are that these have.
pub(crate) fn held_tables(
    alloc: Global,
    tables: &[TableType],
    now: &[Slots],
) -> Result<List<TableType>, Memory>
    ensures { IfOk result (λ x. (n : renumbering.Numbers) → x ≡ held_tables tables.now (map (table_instance n) now.now)) }
{
    let list = with_sizes(alloc, tables, now)?;
    Ok(List::of(list))
}

/// The memory begins with as many pages as there are.
pub(crate) fn held_memories(
    alloc: Global,
    memories: &[Limits],
    memory: &Space,
) -> Result<List<Limits>, Memory>
    ensures { IfOk result (λ x. x ≡ held_memories memories.now memory.now) }
{
    let mut list = Vec::new(alloc);
    if let Some(limits) = memories.first() {
        list.push(Limits {
            min: memory.size(),
            max: limits.max,
        })?;
    }
    Ok(List::of(list))
}

// ---- exports

/// The entry as `_start`, and the memory.
pub(crate) fn entry_exports(alloc: Global, entry: u32) -> Result<List<Export>, Memory>
    ensures { IfOk result (λ x. x ≡ entry_exports entry) }
{
    let mut items = Vec::new(alloc);
    items.push(Export {
        name: Text::of(String::from_str(alloc, "_start")?),
        desc: ExportDesc::Func(entry),
    })?;
    items.push(Export {
        name: Text::of(String::from_str(alloc, "memory")?),
        desc: ExportDesc::Space(0),
    })?;
    Ok(List::of(items))
}
