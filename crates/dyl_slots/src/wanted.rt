// The functions that want slots, and the entries that they ask for.
ghost use Rattle.std.specs.Prelude.{◌≡◌, ◌≤◌, ◌<◌, length, max, IfOk};
ghost use Rattle.std.specs.List.{All};
ghost use Rattle.spec_loading.specs.spec_linking.declared.fault.LinkFault.TheVariants as faults;
ghost use Rattle.spec_loading.specs.spec_linking.LinkedSets.{LinkedSet};
ghost use Rattle.spec_loading.specs.spec_linking.Plans.{limit};
ghost use Rattle.spec_loading.specs.spec_linking.Slots as slots;
ghost use Rattle.dyl_imports.specs.Kept.{AreImportsOf};
ghost use Rattle.dyl_slots.specs.Given.{IsGiven, HasFew};
ghost use Rattle.dyl_slots.specs.Limits.{TellsLimit};
ghost use Rattle.dyl_slots.specs.Outside.{calls_in, hosts_in};
ghost use Rattle.dyl_slots.specs.Wanted.{IsWanted, wanted_end};

use crate::members::{fresh_total, segments_of_all};
use crate::outside::{Outside, outside_of};
use crate::references::outside_refs;
use crate::segmented::Segmented;
use dyl_imports::Imports;
use dyl_plan::{Plan, Sizes};
use spec_loading::spec_linking::LinkFault;
use std::alloc::Global;
use wasm_form::{List, Memory, Ref};

// What the regions of the members give their functions, and the functions outside the members that have slots.
#[derive(Drop)]
pub(crate) struct Wanted {
    pub members: Vec<Segmented>,
    pub outside: Outside,
}

fn all_outside(alloc: Global, imports: &Imports) -> Result<Outside, Memory>
    requires names { length imports.now.known.symbols.now.names ≡ length imports.now.known.members.now }
    requires few { length imports.now.known.members.now ≤ 256 }
    ensures calls { IfOk result (λ o. (L : LinkedSet) → AreImportsOf L imports.now → o.calls.items ≡ calls_in (slots.outside_refs L)) }
    ensures hosts { IfOk result (λ o. (L : LinkedSet) → AreImportsOf L imports.now → o.hosts ≡ hosts_in (slots.outside_refs L)) }
{
    let refs = outside_refs(alloc, imports)?;
    outside_of(alloc, &refs, imports.hosts().len())
}

pub(crate) fn wanted_of(
    alloc: Global,
    imports: &Imports,
    plan: &Plan,
    functions: &[List<Ref>],
) -> Result<Wanted, Memory>
    requires given { (L : LinkedSet) × IsGiven L imports.now.known.members.now plan.now functions.now }
    requires names { length imports.now.known.symbols.now.names ≡ length imports.now.known.members.now }
    ensures count { IfOk result (λ w. length w.members.items ≡ length imports.now.known.members.now) }
    ensures few { IfOk result (λ w. All HasFew w.members.items) }
    ensures exact { IfOk result (λ w. (L : LinkedSet) → IsGiven L imports.now.known.members.now plan.now functions.now → AreImportsOf L imports.now → IsWanted L w) }
{
    let members = segments_of_all(alloc, imports.members(), plan, functions)?;
    let outside = all_outside(alloc, imports)?;
    Ok(Wanted { members, outside })
}

// The index after all slots, where the regions end at this one.
fn wanted_end(wanted: &Wanted, table_end: u32) -> u64
    requires members { length wanted.now.members.items ≤ 256 }
    requires few { All HasFew wanted.now.members.items }
    ensures { result ≡ wanted_end wanted.now table_end }
{
    let outside = &wanted.outside;
    let fresh = u64::from(table_end) + fresh_total(&wanted.members);
    fresh + outside.calls.len() as u64 + outside.hosts.list().len() as u64
}

// That the table has no more entries than it may have.
fn fitting(entries: u64, most: u32) -> Result<u32, LinkFault>
    ensures tells { TellsLimit result (limit faults.TableLimit entries most) }
    ensures value { IfOk result (λ n. n ≡ entries) }
    ensures fits { IfOk result (λ n. n ≤ most) }
{
    if entries <= u64::from(most) {
        Ok(entries as u32)
    } else {
        Err(LinkFault::TableLimit { entries, max: most })
    }
}

// The initial entries of the table.
pub(crate) fn entries_of(wanted: &Wanted, table_end: u32, sizes: &Sizes) -> Result<u32, LinkFault>
    requires members { length wanted.now.members.items ≤ 256 }
    requires few { All HasFew wanted.now.members.items }
    ensures tells { TellsLimit result (limit faults.TableLimit (max (wanted_end wanted.now table_end) sizes.now.table_min) sizes.now.table_max) }
    ensures value { IfOk result (λ n. n ≡ max (wanted_end wanted.now table_end) sizes.now.table_min) }
    ensures fits { IfOk result (λ n. n ≤ sizes.now.table_max) }
{
    let end = wanted_end(wanted, table_end);
    fitting(end.max(u64::from(sizes.table_min)), sizes.table_max)
}
