// The tables that a module begins with (section 4.5.3), before its segments are applied, and copies between them.
ghost use Rattle.std.specs.Prelude.{◌≡◌, ◌<◌, IsTrue, IfOk, length, map};
ghost use Rattle.std.specs.List.{list_all};
ghost use Rattle.spec_safety.specs.spec_validation.Faults.{table_bounded};
ghost use Rattle.spec_safety.specs.spec_execution.OneModule.{opened_table};
ghost use Rattle.wasm_space.specs.Access.{ChangesOrTraps};
ghost use Rattle.wasm_instance.specs.Copies.{copied_between};

use std::alloc::Global;
use wasm_form::{Memory, TableType, Trap};
use wasm_space::Slots;

/// The most entries of a table.
const MOST_ENTRIES: u32 = 1_048_576;

fn table_of(alloc: Global, ty: &TableType) -> Result<Slots, Memory>
    requires { IsTrue (table_bounded ty.now) }
    ensures { IfOk result (λ s. s ≡ opened_table ty.now) }
{
    let max = ty.limits.max.unwrap_or(MOST_ENTRIES);
    Slots::new(alloc, ty.limits.min, MOST_ENTRIES.min(max))
}

/// A table for each type, of nulls. `Memory` where no memory could be had.
pub fn tables_of(alloc: Global, types: &[TableType]) -> Result<Vec<Slots>, Memory>
    requires { IsTrue (list_all table_bounded types.now) }
    ensures { IfOk result (λ v. v.items ≡ map opened_table types.now) }
{
    let mut tables = Vec::new(alloc);
    for ty in types {
        tables.push(table_of(alloc, ty)?)?;
    }
    Ok(tables)
}

/// Copies `n` entries from place `start` of table `from` to place `at` of table `to`; `TableBounds` where they pass the end
/// of either, and nothing is written (section 4.4.6, table.copy).
pub fn copy_between(
    tables: &mut [Slots],
    to: usize,
    from: usize,
    at: u32,
    start: u32,
    n: u32,
) -> Result<(), Trap>
    requires to { to < length tables.old }
    requires from { from < length tables.old }
    ensures { ChangesOrTraps Trap.TableBounds tables.old (copied_between tables.old to from at start n) result tables.new }
{
    if to == from {
        return tables[to].copy(at, start, n);
    }
    if to < from {
        let (before, after) = tables.split_at_mut(from);
        before[to].copy_from(at, &after[0], start, n)
    } else {
        let (before, after) = tables.split_at_mut(to);
        after[0].copy_from(at, &before[from], start, n)
    }
}
