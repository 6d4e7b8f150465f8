// Members in order, breadth first.
ghost use Rattle.std.specs.Prelude.{◌≡◌, IfOk, OnOk, map, slice_get};
ghost use Rattle.spec_linking.specs.Orders.{breadth_first, with_numbers, needed_by, with_number};
ghost use Rattle.dyl_search.specs.Gathers.{member_of};

use crate::set::Member;
use std::alloc::Global;
use wasm_form::Memory;

// A number that isn't known yet is added.
fn add_number(known: &mut Vec<u32>, n: u32) -> Result<(), Memory>
    ensures { OnOk result (known.new.items ≡ with_number known.old.items n) }
{
    if known.contains(&n) {
        return Ok(());
    }
    known.push(n)?;
    Ok(())
}

// Numbers that aren't known yet are added, in order, each once.
fn add_new(known: &mut Vec<u32>, numbers: &[u32]) -> Result<(), Memory>
    ensures { OnOk result (known.new.items ≡ with_numbers known.old.items numbers.now) }
{
    for n in numbers {
        add_number(known, *n)?;
    }
    Ok(())
}

// What the known member at a place needs is added.
fn add_needed(members: &[Member], known: &mut Vec<u32>, k: usize) -> Result<(), Memory>
    ensures { OnOk result (known.new.items ≡ with_numbers known.old.items (needed_by (map member_of members.now) (slice_get known.old.items k))) }
{
    let Some(n) = known.as_slice().get(k).copied() else {
        return Ok(());
    };
    match members.get(n as usize) {
        Some(member) => add_new(known, member.needed.items()),
        None => Ok(()),
    }
}

// The closure of a member: the member and what it reaches, breadth first.
pub fn closure_of(alloc: Global, members: &[Member], m: u32) -> Result<Vec<u32>, Memory>
    ensures { IfOk result (λ v. v.items ≡ breadth_first (map member_of members.now) m) }
{
    let mut known = Vec::new(alloc);
    known.push(m)?;
    for k in 0..members.len() {
        add_needed(members, &mut known, k)?;
    }
    Ok(known)
}
