// The table that all members share.
ghost use Rattle.std.specs.Prelude.{◌≡◌, ◌≤◌, ◌<◌, ◌+◌, Some, map, length, IfOk};
ghost use Rattle.spec_loading.specs.spec_runtime.Tables.{new_table, entries_overwritten};
ghost use Rattle.spec_loading.specs.spec_linking.Slots.{table_entries, table_most};
ghost use Rattle.spec_loading.specs.Members.{opening_table};
ghost use Rattle.dyl_store.specs.Opening.{outside_at};

use dyl_link::Linked;
use std::alloc::Global;
use wasm_form::{Memory, Ref};
use wasm_space::Slots;

// Functions as entries of a table.
fn entries_of(alloc: Global, refs: &[Ref]) -> Result<Vec<Option<Ref>>, Memory>
    ensures { IfOk result (λ v. v.items ≡ map Some refs.now) }
{
    let mut entries = Vec::new(alloc);
    for r in refs {
        entries.push(Some(*r))?;
    }
    Ok(entries)
}

// The last member.
fn last_member(linked: &Linked) -> u32
    ensures { result + 1 ≡ length linked.now.set.members }
{
    linked.member_count() - 1
}

// The first of the slots behind the fresh ones of the members.
fn outside_at(linked: &Linked) -> u32
    ensures { result ≡ outside_at linked.now }
{
    linked.links();
    let last = last_member(linked);
    linked.first_slot(last) + linked.fresh(last).len() as u32
}

// Entries are written to a table, from an index on.
fn write_entries(table: &mut Slots, at: u32, entries: &[Option<Ref>])
    requires fits { at + length entries.now ≤ length table.old.entries }
    requires few { length entries.now < 4294967296 }
    ensures { table.new ≡ record table.old { entries = entries_overwritten table.old.entries at entries.now } }
{
    let _ = table.init(at, entries, 0, entries.len() as u32);
}

// The shared table with its initial entries, all null.
fn empty_table(alloc: Global, linked: &Linked) -> Result<Slots, Memory>
    ensures { IfOk result (λ s. s ≡ new_table (table_entries linked.now) (table_most linked.now)) }
{
    linked.links();
    Slots::new(alloc, linked.table_entries(), linked.table_max())
}

// The shared table: nulls, but for the functions of the loader and of the host, which have the slots behind the members' fresh ones.
pub(crate) fn shared_table(alloc: Global, linked: &Linked) -> Result<Slots, Memory>
    ensures { IfOk result (λ s. s ≡ opening_table linked.now) }
{
    linked.links();
    let entries = entries_of(alloc, linked.outside())?;
    let mut table = empty_table(alloc, linked)?;
    write_entries(&mut table, outside_at(linked), &entries);
    Ok(table)
}
