// The listing of a linked set.
ghost use Rattle.std.specs.Prelude.{◌≡◌, ◌++◌, ◌*◌, codes, decimal, IfOk, OnOk, string_bytes};
ghost use Rattle.spec_traces.specs.spec_hosts.spec_runtime.Memories.{page_size};
ghost use Rattle.spec_linking.specs.Slots.{linked_plan, heap_end, table_entries, table_most};
ghost use Rattle.dyl_link.specs.dyl_search.Gathers.{member_of};
ghost use Rattle.dyl_front.specs.Listing.{space, line_end, range_line, plan_lines, module_line, module_lines, listing_of};

use crate::binds::put_binds;
use crate::lines::put_around;
use crate::slots::put_all_slots;
use dyl_link::Linked;
use dyl_link::dyl_plan::Plan;
use dyl_link::dyl_search::Member;
use spec_merging::wasm_form::Memory;
use spec_traces::dyl_print::put_text;
use std::alloc::Global;

/// A name, and where a range begins and ends.
fn range_text(alloc: Global, name: &str, lower: u64, upper: u64) -> Result<String, Memory>
    ensures { IfOk result (λ text. string_bytes text ≡ range_line name.now lower upper) }
{
    let text = format!(in alloc; "{name} {lower} {upper}\n")?;
    Ok(text)
}

/// Puts the line of a range.
pub(crate) fn put_range(
    alloc: Global,
    name: &str,
    lower: u64,
    upper: u64,
    to: &mut Vec<u8>,
) -> Result<(), Memory>
    ensures { OnOk result (to.new.items ≡ to.old.items ++ range_line name.now lower upper) }
{
    put_text(&range_text(alloc, name, lower, upper)?, to)
}

/// Puts the lines of a plan, by the entries of the table and the most.
fn put_plan_lines(
    alloc: Global,
    plan: &Plan,
    entries: u32,
    most: u32,
    to: &mut Vec<u8>,
) -> Result<(), Memory>
    ensures { OnOk result (to.new.items ≡ to.old.items ++ plan_lines plan.now (plan.now.pages * page_size) entries most) }
{
    let (pages, top) = (u64::from(plan.pages()), u64::from(plan.stack_top()));
    put_range(alloc, "memory", pages, u64::from(plan.pages_max()), to)?;
    put_range(alloc, "table", u64::from(entries), u64::from(most), to)?;
    put_range(alloc, "stack", 1_024, top, to)?;
    put_range(alloc, "texts", top, top + 101, to)?;
    put_range(
        alloc,
        "heap",
        u64::from(plan.heap_base()),
        pages * 65_536,
        to,
    )
}

/// Puts the lines of the plan.
fn put_plan(alloc: Global, linked: &Linked, to: &mut Vec<u8>) -> Result<(), Memory>
    ensures { OnOk result (to.new.items ≡ to.old.items ++ plan_lines (linked_plan linked.now) (heap_end linked.now) (table_entries linked.now) (table_most linked.now)) }
{
    let (entries, most) = (linked.table_entries(), linked.table_max());
    put_plan_lines(alloc, linked.plan(), entries, most, to)
}

/// The line of a member up to its name.
fn module_text(alloc: Global, m: u32) -> Result<String, Memory>
    ensures { IfOk result (λ text. string_bytes text ≡ codes "module " ++ decimal m ++ space) }
{
    let text = format!(in alloc; "module {m} ")?;
    Ok(text)
}

/// The bases and sizes of the regions of a member.
fn regions_text(
    alloc: Global,
    memory: u32,
    size: u32,
    table: u32,
    entries: u32,
) -> Result<String, Memory>
    ensures { IfOk result (λ text. string_bytes text ≡ space ++ decimal memory ++ space ++ decimal size ++ space ++ decimal table ++ space ++ decimal entries ++ line_end) }
{
    let text = format!(in alloc; " {memory} {size} {table} {entries}\n")?;
    Ok(text)
}

/// Puts the line of a member.
fn put_module(
    alloc: Global,
    m: u32,
    member: &Member,
    memory: u32,
    table: u32,
    to: &mut Vec<u8>,
) -> Result<(), Memory>
    ensures { OnOk result (to.new.items ≡ to.old.items ++ module_line m (member_of member.now) memory table) }
{
    let start = module_text(alloc, m)?;
    let dylink = &member.dylink;
    let end = regions_text(alloc, memory, dylink.mem_size, table, dylink.table_size)?;
    put_around(&start, member.name.as_str(), &end, to)
}

/// Puts the lines of the members.
fn put_modules(alloc: Global, linked: &Linked, to: &mut Vec<u8>) -> Result<(), Memory>
    ensures { OnOk result (to.new.items ≡ to.old.items ++ module_lines (linked_plan linked.now) 0 linked.now.set.members) }
{
    for m in 0..linked.member_count() {
        let (memory, table) = (linked.memory_base(m), linked.table_base(m));
        put_module(alloc, m, linked.member(m), memory, table, to)?;
    }
    Ok(())
}

/// Puts the whole listing.
fn put_listing(alloc: Global, linked: &Linked, to: &mut Vec<u8>) -> Result<(), Memory>
    ensures { OnOk result (to.new.items ≡ to.old.items ++ listing_of linked.now) }
{
    put_plan(alloc, linked, to)?;
    put_modules(alloc, linked, to)?;
    put_all_slots(alloc, linked, to)?;
    put_binds(alloc, linked, to)
}

/// The listing of a linked set: its plan, its members, the fresh slots, and what each import is, a line for each.
pub fn listing(alloc: Global, linked: &Linked) -> Result<Vec<u8>, Memory>
    ensures { IfOk result (λ bytes. bytes.items ≡ listing_of linked.now) }
{
    let mut bytes = Vec::new(alloc);
    put_listing(alloc, linked, &mut bytes)?;
    Ok(bytes)
}
