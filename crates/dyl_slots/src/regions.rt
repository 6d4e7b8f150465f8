// The slots that a member's element segments give its functions.
ghost use Rattle.std.specs.Prelude.{◌≡◌, ℕ, ◌+◌, ◌<◌, ◌^◌, length, map, IfOk, Option, None, slice_index_or};
ghost use Rattle.spec_loading.specs.spec_linking.Slots.{applied, all_applied, nowhere, index_of};
ghost use Rattle.spec_loading.specs.spec_linking.Definitions.{or_other};
ghost use Rattle.wasm_form.specs.declared.runtime.Ref.TheVariants.{Own};
ghost use Rattle.dyl_slots.specs.Regions.{IsRegion, placing_value, written, noted, first_left};

use std::alloc::Global;
use wasm_form::{List, Memory, Ref};

// References that stand in the table from an index on.
#[derive(Drop)]
pub(crate) struct Placing {
    pub at: u32,
    pub items: List<Option<Ref>>,
}

// Writes a reference, if its index lies in the region.
fn put(region: &mut [Option<Ref>], base: u32, index: u64, item: Option<Ref>)
    ensures { (k : ℕ) → k < length region.old → slice_index_or region.new k None ≡ written item index (base + k) (slice_index_or region.old k None) }
{
    if u64::from(base) <= index {
        let place = index - u64::from(base);
        if place < region.len() as u64 {
            region[place as usize] = item;
        }
    }
}

// Writes references into what lies in the region.
#[tactic(auto, using(crate::proofs::Applied::nothing_applied))]
fn apply(region: &mut [Option<Ref>], base: u32, at: u32, items: &[Option<Ref>])
    ensures { (table : ℕ → Option Ref) → IsRegion region.old base table → IsRegion region.new base (applied table (at, items.now)) }
{
    for n in 0..items.len() {
        put(region, base, u64::from(at) + n as u64, items[n]);
    }
}

// Applies placings in order.
fn apply_all(region: &mut [Option<Ref>], base: u32, placings: &[Placing])
    ensures { (table : ℕ → Option Ref) → IsRegion region.old base table → IsRegion region.new base (all_applied table (map placing_value placings.now)) }
{
    for p in placings {
        apply(region, base, p.at, p.items.items());
    }
}

// Notes the index at which a function of the member is left, unless it is left before.
fn note(slots: &mut [Option<u32>], r: Option<Ref>, m: u32, index: u32)
    ensures { (f : ℕ) → f < length slots.old → slice_index_or slots.new f None ≡ noted (slice_index_or slots.old f None) r m f index }
{
    if let Some(Ref::Own { unit, func }) = r {
        if unit == m && (func as usize) < slots.len() && slots[func as usize].is_none() {
            slots[func as usize] = Some(index);
        }
    }
}

// For each function of a member, the first index of its region at which it is left.
fn note_all(slots: &mut [Option<u32>], region: &[Option<Ref>], base: u32, m: u32)
    requires { base + length region.now < 2 ^ 32 }
    ensures { (f : ℕ) → f < length slots.old → slice_index_or slots.new f None ≡ or_other (slice_index_or slots.old f None) (first_left m f base region.now) }
{
    for n in 0..region.len() {
        note(slots, region[n], m, base + n as u32);
    }
}

fn nulls(alloc: Global, count: u32) -> Result<Vec<Option<Ref>>, Memory>
    ensures length { IfOk result (λ v. length v.items ≡ count) }
    ensures nulls { IfOk result (λ v. (k : ℕ) → slice_index_or v.items k None ≡ None) }
{
    let mut v = Vec::new(alloc);
    for n in 0..count {
        let _n = n;
        v.push(None)?;
    }
    Ok(v)
}

pub(crate) fn no_slots(alloc: Global, count: usize) -> Result<Vec<Option<u32>>, Memory>
    ensures length { IfOk result (λ v. length v.items ≡ count) }
    ensures nulls { IfOk result (λ v. (k : ℕ) → slice_index_or v.items k None ≡ None) }
{
    let mut v = Vec::new(alloc);
    for n in 0..count {
        let _n = n;
        v.push(None)?;
    }
    Ok(v)
}

// For each function of member m, by its number, the first index of the member's region at which the placings, applied in order to
// nulls, leave it.
pub(crate) fn segment_slots(
    alloc: Global,
    placings: &[Placing],
    base: u32,
    size: u32,
    m: u32,
    functions: usize,
) -> Result<Vec<Option<u32>>, Memory>
    requires { base + size < 2 ^ 32 }
    ensures count { IfOk result (λ slots. length slots.items ≡ functions) }
    ensures first { IfOk result (λ slots. (f : ℕ) → f < functions → slice_index_or slots.items f None ≡ index_of (Own m f) (all_applied nowhere (map placing_value placings.now)) base size) }
{
    let mut region = nulls(alloc, size)?;
    apply_all(&mut region, base, placings);
    let mut slots = no_slots(alloc, functions)?;
    note_all(&mut slots, &region, base, m);
    Ok(slots)
}
