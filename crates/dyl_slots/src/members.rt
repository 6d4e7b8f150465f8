// The slots of all members' functions.
ghost use Rattle.std.specs.Prelude.{◌≡◌, ℕ, ◌+◌, ◌<◌, ◌≤◌, ◌^◌, length, slice_get, IfOk, Some};
ghost use Rattle.std.specs.List.{All};
ghost use Rattle.spec_loading.specs.spec_linking.LinkedSets.{LinkedSet};
ghost use Rattle.spec_loading.specs.spec_linking.Slots.{linked_plan};
ghost use Rattle.spec_loading.specs.LoadedSet.{first_slot};
ghost use Rattle.dyl_slots.specs.Given.{IsGiven, IsSegmentedOf, IsSlotsOf, AllAt, HasFew, fresh_sum};

use crate::fresh::{slots_from, slots_of};
use crate::placings::Bases;
use crate::segmented::{Segmented, member_segments};
use crate::tables::MemberSlots;
use dyl_imports::dyl_search::Member;
use dyl_plan::Plan;
use std::alloc::Global;
use wasm_form::{List, Memory, Ref};

fn bases_of(plan: &Plan, m: u32) -> Bases
    requires memory { m < length plan.now.bases }
    requires table { m < length plan.now.table_bases }
    ensures memory { slice_get plan.now.bases m ≡ Some result.memory }
    ensures table { slice_get plan.now.table_bases m ≡ Some result.table }
    ensures small { result.memory < 2 ^ 32 }
{
    Bases {
        memory: plan.base(m),
        table: plan.table_base(m),
    }
}

// What the regions of the members give their functions.
pub(crate) fn segments_of_all(
    alloc: Global,
    members: &[Member],
    plan: &Plan,
    functions: &[List<Ref>],
) -> Result<Vec<Segmented>, Memory>
    requires given { (L : LinkedSet) × IsGiven L members.now plan.now functions.now }
    ensures count { IfOk result (λ v. length v.items ≡ length members.now) }
    ensures exact { IfOk result (λ v. (L : LinkedSet) → IsGiven L members.now plan.now functions.now → AllAt (IsSegmentedOf L) v.items) }
    ensures few { IfOk result (λ v. All HasFew v.items) }
{
    let mut all = Vec::new(alloc);
    for m in 0..members.len() {
        let bases = bases_of(plan, m as u32);
        let s = member_segments(alloc, &members[m], m as u32, functions[m].items(), bases)?;
        all.push(s)?;
    }
    Ok(all)
}

// How many fresh slots the members have.
pub(crate) fn fresh_total(all: &[Segmented]) -> u64
    requires members { length all.now ≤ 256 }
    requires few { All HasFew all.now }
    ensures value { result ≡ fresh_sum all.now }
    ensures small { result ≤ 2 ^ 40 }
{
    let mut total = 0;
    for s in all {
        total += s.fresh.items().len() as u64;
    }
    total
}

fn copied(alloc: Global, numbers: &[u32]) -> Result<List<u32>, Memory>
    ensures { IfOk result (λ l. l ≡ numbers.now) }
{
    let mut copy = Vec::new(alloc);
    for n in numbers {
        copy.push(*n)?;
    }
    Ok(List::of(copy))
}

// The slots of a member's functions, of which the fresh ones begin at `first`.
fn member_slots(alloc: Global, s: &Segmented, first: u32) -> Result<MemberSlots, Memory>
    requires { first + length s.now.fresh < 2 ^ 32 }
    ensures { IfOk result (λ x. (L : LinkedSet) (m : ℕ) → IsSegmentedOf L m s.now → first ≡ first_slot L m → IsSlotsOf L m x) }
{
    let fresh = slots_from(alloc, s.fresh.items(), first, s.segments.len())?;
    let slots = slots_of(alloc, s.defined.list(), &s.segments, &fresh)?;
    let copy = copied(alloc, s.fresh.items())?;
    Ok(MemberSlots {
        slots,
        fresh: copy,
        first_slot: first,
    })
}

// The slots of the members' functions, of which the fresh ones begin at the end of the regions.
pub(crate) fn slots_of_all(
    alloc: Global,
    all: &[Segmented],
    table_end: u32,
) -> Result<Vec<MemberSlots>, Memory>
    requires { table_end + fresh_sum all.now < 2 ^ 32 }
    ensures count { IfOk result (λ v. length v.items ≡ length all.now) }
    ensures exact { IfOk result (λ v. (L : LinkedSet) → AllAt (IsSegmentedOf L) all.now → table_end ≡ (linked_plan L).table_end → AllAt (IsSlotsOf L) v.items) }
{
    let mut next = table_end;
    let mut slots = Vec::new(alloc);
    for s in all {
        let x = member_slots(alloc, s, next)?;
        slots.push(x)?;
        next += s.fresh.items().len() as u32;
    }
    Ok(slots)
}
