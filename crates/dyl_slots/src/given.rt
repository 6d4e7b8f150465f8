// The slots that functions are given.
ghost use Rattle.std.specs.Prelude.{◌≡◌, ℕ, ◌+◌, ◌<◌, ◌≤◌, ◌^◌, nat_eq, length, IfOk};
ghost use Rattle.std.specs.List.{All, position_from};
ghost use Rattle.wasm_form.specs.declared.runtime.LoaderCall.{LoaderCall};
ghost use Rattle.spec_loading.specs.spec_linking.LinkedSets.{LinkedSet};
ghost use Rattle.spec_loading.specs.spec_linking.Slots.{linked_plan, imported_number, same_call};
ghost use Rattle.dyl_imports.specs.Kept.{AreImportsOf};
ghost use Rattle.dyl_slots.specs.Fresh.{slot_at};
ghost use Rattle.dyl_slots.specs.Found.{loader_slot_in};
ghost use Rattle.dyl_slots.specs.Given.{HasFew};
ghost use Rattle.dyl_slots.specs.Wanted.{IsWanted, AreSlots, IsRegular, wanted_end, cell_at};

use crate::cells::{Known, Slots, cells_of};
use crate::fresh::slots_from;
use crate::members::{fresh_total, slots_of_all};
use crate::outside::call_slot;
use crate::tables::{LoaderSlots, MemberSlots};
use crate::wanted::Wanted;
use dyl_imports::Imports;
use dyl_plan::Plan;
use std::alloc::Global;
use wasm_form::{List, LoaderCall, Memory};

// The slots of the members' functions, of the host functions by their numbers, and of the functions of the loader.
#[derive(Drop)]
pub(crate) struct AllSlots {
    pub members: Vec<MemberSlots>,
    pub hosts: Vec<Option<u32>>,
    pub loader: LoaderSlots,
}

// A number above all of these.
fn above(numbers: &[u32]) -> usize
    ensures { All (λ n. n < result) numbers.now }
{
    let mut count = 0;
    for n in numbers {
        count = count.max(*n as usize + 1);
    }
    count
}

// The slots of host functions by their numbers, where these have slots from `first` on.
fn host_slots(alloc: Global, hosts: &[u32], first: u32) -> Result<Vec<Option<u32>>, Memory>
    requires { first + length hosts.now < 2 ^ 32 }
    ensures { IfOk result (λ v. (n : ℕ) → slot_at v.items n ≡ position_from (nat_eq n) first hosts.now) }
{
    let count = above(hosts);
    let slots = slots_from(alloc, hosts, first, count)?;
    Ok(slots)
}

// The slots of the functions of the loader, where these have slots from `first` on.
fn loader_slots(calls: &[LoaderCall], first: u32) -> LoaderSlots
    requires { first + length calls.now < 2 ^ 32 }
    ensures { (call : LoaderCall) → loader_slot_in result call ≡ position_from (same_call call) first calls.now }
{
    LoaderSlots {
        opens: call_slot(calls, first, LoaderCall::Dlopen),
        searches: call_slot(calls, first, LoaderCall::Dlsym),
        closes: call_slot(calls, first, LoaderCall::Dlclose),
        errors: call_slot(calls, first, LoaderCall::Dlerror),
    }
}

pub(crate) fn slots_of_wanted(
    alloc: Global,
    wanted: &Wanted,
    table_end: u32,
) -> Result<AllSlots, Memory>
    requires members { length wanted.now.members.items ≤ 256 }
    requires few { All HasFew wanted.now.members.items }
    requires room { wanted_end wanted.now table_end < 2 ^ 32 }
    ensures count { IfOk result (λ s. length s.members.items ≡ length wanted.now.members.items) }
    ensures exact { IfOk result (λ s. (L : LinkedSet) → table_end ≡ (linked_plan L).table_end → IsWanted L wanted.now → AreSlots L s) }
{
    let members = slots_of_all(alloc, &wanted.members, table_end)?;
    let first = table_end + fresh_total(&wanted.members) as u32;
    let calls = &wanted.outside.calls;
    let loader = loader_slots(calls, first);
    let first_host = first + calls.len() as u32;
    let hosts = host_slots(alloc, wanted.outside.hosts.list(), first_host)?;
    Ok(AllSlots {
        members,
        hosts,
        loader,
    })
}

// The initial values of the members' imported globals.
pub(crate) fn cells_with(
    alloc: Global,
    imports: &Imports,
    plan: &Plan,
    slots: &AllSlots,
) -> Result<Vec<List<Option<u32>>>, Memory>
    requires regular { IsRegular imports.now plan.now }
    requires count { length slots.now.members.items ≡ length imports.now.known.members.now }
    ensures { IfOk result (λ v. (L : LinkedSet) → plan.now ≡ linked_plan L → AreImportsOf L imports.now → AreSlots L slots.now → (m g : ℕ) → cell_at v.items m g ≡ imported_number L m g) }
{
    let slots = Slots {
        members: &slots.members,
        hosts: &slots.hosts,
        loader: slots.loader,
    };
    let known = Known {
        imports,
        plan,
        slots,
    };
    let cells = cells_of(alloc, &known)?;
    Ok(cells)
}
