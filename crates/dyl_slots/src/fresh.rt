// Slots of functions by their numbers.
ghost use Rattle.std.specs.Prelude.{◌≡◌, ℕ, ◌+◌, ◌<◌, ◌^◌, length, nat_eq, is_none, IfOk, Some, None, slice_index_or, if◌then◌else◌};
ghost use Rattle.std.specs.List.{filter, position_from};
ghost use Rattle.spec_loading.specs.spec_linking.Definitions.{or_other};
ghost use Rattle.spec_loading.specs.spec_linking.Orders.{is_among};
ghost use Rattle.dyl_slots.specs.Fresh.{slot_at, numbered, either_slot, slot_by};

use crate::regions::no_slots;
use std::alloc::Global;
use wasm_form::{List, Memory};

// The slot at a place, if there is one.
pub(crate) fn slot_at(slots: &[Option<u32>], n: u32) -> Option<u32>
    ensures { result ≡ slot_at slots.now n }
{
    match slots.get(n as usize) {
        Some(slot) => *slot,
        None => None,
    }
}

// Those of some functions that have no slot yet.
pub(crate) fn without_slot(
    alloc: Global,
    functions: &[u32],
    slots: &[Option<u32>],
) -> Result<List<u32>, Memory>
    ensures { IfOk result (λ l. l ≡ filter (λ f. is_none (slot_at slots.now f)) functions.now) }
{
    let mut fresh = Vec::new(alloc);
    for f in functions {
        if slot_at(slots, *f).is_none() {
            fresh.push(*f)?;
        }
    }
    Ok(List::of(fresh))
}

// Notes the slot of a number, unless it has one.
fn note(slots: &mut [Option<u32>], n: u32, slot: u32)
    ensures { (f : ℕ) → f < length slots.old → slice_index_or slots.new f None ≡ or_other (slice_index_or slots.old f None) (numbered n slot f) }
{
    if (n as usize) < slots.len() && slots[n as usize].is_none() {
        slots[n as usize] = Some(slot);
    }
}

fn note_each(slots: &mut [Option<u32>], numbers: &[u32], first: u32)
    requires { first + length numbers.now < 2 ^ 32 }
    ensures { (f : ℕ) → f < length slots.old → slice_index_or slots.new f None ≡ or_other (slice_index_or slots.old f None) (position_from (nat_eq f) first numbers.now) }
{
    for n in 0..numbers.len() {
        note(slots, numbers[n], first + n as u32);
    }
}

// Of each number below `count`, its slot, where these numbers have one after the other from `first` on.
pub(crate) fn slots_from(
    alloc: Global,
    numbers: &[u32],
    first: u32,
    count: usize,
) -> Result<Vec<Option<u32>>, Memory>
    requires { first + length numbers.now < 2 ^ 32 }
    ensures count { IfOk result (λ v. length v.items ≡ count) }
    ensures slots { IfOk result (λ v. (f : ℕ) → f < count → slice_index_or v.items f None ≡ position_from (nat_eq f) first numbers.now) }
{
    let mut slots = no_slots(alloc, count)?;
    note_each(&mut slots, numbers, first);
    Ok(slots)
}

// The slot that the region gives a function, or else the fresh one.
fn either_slot(segments: &[Option<u32>], fresh: &[Option<u32>], f: u32) -> Option<u32>
    ensures { result ≡ either_slot segments.now fresh.now f }
{
    match slot_at(segments, f) {
        Some(slot) => Some(slot),
        None => slot_at(fresh, f),
    }
}

fn set_slot(slots: &mut [Option<u32>], f: u32, slot: Option<u32>)
    ensures { (k : ℕ) → k < length slots.old → slice_index_or slots.new k None ≡ (if nat_eq f k then slot else slice_index_or slots.old k None) }
{
    if (f as usize) < slots.len() {
        slots[f as usize] = slot;
    }
}

fn set_each(
    slots: &mut [Option<u32>],
    defined: &[u32],
    segments: &[Option<u32>],
    fresh: &[Option<u32>],
)
    ensures { (k : ℕ) → k < length slots.old → slice_index_or slots.new k None ≡ (if is_among k defined.now then either_slot segments.now fresh.now k else slice_index_or slots.old k None) }
{
    for f in defined {
        set_slot(slots, *f, either_slot(segments, fresh, *f));
    }
}

// The slots of functions by their numbers: of those that are defined.
pub(crate) fn slots_of(
    alloc: Global,
    defined: &[u32],
    segments: &[Option<u32>],
    fresh: &[Option<u32>],
) -> Result<List<Option<u32>>, Memory>
    ensures count { IfOk result (λ l. length l ≡ length segments.now) }
    ensures slots { IfOk result (λ l. (f : ℕ) → f < length segments.now → slice_index_or l f None ≡ slot_by defined.now segments.now fresh.now f) }
{
    let mut slots = no_slots(alloc, segments.len())?;
    set_each(&mut slots, defined, segments, fresh);
    Ok(List::of(slots))
}
