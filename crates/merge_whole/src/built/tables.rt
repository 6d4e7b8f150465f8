// The tables and the memory of the merged module.
ghost use Rattle.std.specs.Prelude.{◌≡◌, ◌++◌, ◌∷◌, [], IfOk, OnOk};
ghost use Rattle.merge_module.specs.MergedModule.{shared_table_type, merged_tables, shared_memory_type};
ghost use Rattle.merge_whole.specs.Built.{joined, tables_of};

use dyl_link::Linked;
use dyl_link::dyl_search::Member;
use merge_pieces::memory_type;
use std::alloc::Global;
use wasm_form::{Limits, List, Memory, TableType, ValType};

fn shared_table(linked: &Linked) -> TableType
    ensures { result ≡ shared_table_type linked.now }
{
    TableType {
        elem: ValType::FuncRef,
        limits: Limits {
            min: linked.table_entries(),
            max: Some(linked.table_max()),
        },
    }
}

fn put_tables(to: &mut Vec<TableType>, tables: &[TableType]) -> Result<(), Memory>
    ensures { OnOk result (to.new.items ≡ to.old.items ++ tables.now) }
{
    for ty in tables {
        to.push(*ty)?;
    }
    Ok(())
}

fn put_members(to: &mut Vec<TableType>, members: &[Member]) -> Result<(), Memory>
    ensures { OnOk result (to.new.items ≡ to.old.items ++ joined tables_of 0 members.now) }
{
    for member in members {
        put_tables(to, member.checked.module().tables.items())?;
    }
    Ok(())
}

fn tables(alloc: Global, linked: &Linked) -> Result<Vec<TableType>, Memory>
    ensures { IfOk result (λ x. x.items ≡ merged_tables linked.now) }
{
    let mut tables = Vec::new(alloc);
    tables.push(shared_table(linked))?;
    put_members(&mut tables, linked.members())?;
    Ok(tables)
}

// The shared table, and those of the members.
pub(crate) fn merged_tables(alloc: Global, linked: &Linked) -> Result<List<TableType>, Memory>
    ensures { IfOk result (λ x. x ≡ merged_tables linked.now) }
{
    let tables = tables(alloc, linked)?;
    Ok(List::of(tables))
}

// The planned memory.
pub(crate) fn merged_memories(alloc: Global, linked: &Linked) -> Result<List<Limits>, Memory>
    ensures { IfOk result (λ x. x ≡ shared_memory_type linked.now ∷ []) }
{
    let plan = linked.plan();
    let mut memories = Vec::new(alloc);
    memories.push(memory_type(plan.pages(), plan.pages_max()))?;
    Ok(List::of(memories))
}
