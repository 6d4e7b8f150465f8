// Where the segments of each member go, by the bases among its imported globals, and what its fresh slots hold, found before the run.
ghost use Rattle.std.specs.Prelude.{◌≡◌, ◌<◌, All, length, map, IfOk};
ghost use Rattle.dyl_addresses.specs.Offsets.{number_with, HasElemOffset, HasDataOffset};
ghost use Rattle.dyl_store.specs.Placements.{IsPlacement, elem_offset, data_offset, own_entry};
ghost use Rattle.dyl_store.specs.Runs.{ArePlacements};

use crate::place_member::Placement;
use dyl_addresses::{bases_of, offset};
use dyl_link::Linked;
use dyl_link::wasm_check::Checked;
use spec_loading::slots_fit;
use std::alloc::Global;
use wasm_form::{Data, DataMode, Elem, ElemMode, Memory, Ref};

// Where an element segment goes, if it is active.
fn elem_at(alloc: Global, bases: &[Option<u32>], segment: &Elem) -> Result<Option<u32>, Memory>
    requires { HasElemOffset segment.now }
    ensures { IfOk result (λ at. at ≡ elem_offset (number_with bases.now) segment.now) }
{
    match &segment.mode {
        ElemMode::Active { offset: at, .. } => offset(alloc, bases, at),
        ElemMode::Passive | ElemMode::Declarative => Ok(None),
    }
}

fn elems_at(
    alloc: Global,
    bases: &[Option<u32>],
    segments: &[Elem],
) -> Result<Vec<Option<u32>>, Memory>
    requires { All HasElemOffset segments.now }
    ensures { IfOk result (λ v. v.items ≡ map (elem_offset (number_with bases.now)) segments.now) }
{
    let mut ats = Vec::new(alloc);
    for segment in segments {
        ats.push(elem_at(alloc, bases, segment)?)?;
    }
    Ok(ats)
}

// Where a data segment goes, if it is active.
fn data_at(alloc: Global, bases: &[Option<u32>], segment: &Data) -> Result<Option<u32>, Memory>
    requires { HasDataOffset segment.now }
    ensures { IfOk result (λ at. at ≡ data_offset (number_with bases.now) segment.now) }
{
    match &segment.mode {
        DataMode::Active { offset: at, .. } => offset(alloc, bases, at),
        DataMode::Passive => Ok(None),
    }
}

fn datas_at(
    alloc: Global,
    bases: &[Option<u32>],
    segments: &[Data],
) -> Result<Vec<Option<u32>>, Memory>
    requires { All HasDataOffset segments.now }
    ensures { IfOk result (λ v. v.items ≡ map (data_offset (number_with bases.now)) segments.now) }
{
    let mut ats = Vec::new(alloc);
    for segment in segments {
        ats.push(data_at(alloc, bases, segment)?)?;
    }
    Ok(ats)
}

// Functions of a member as entries of the table.
fn slots_of(alloc: Global, m: u32, fresh: &[u32]) -> Result<Vec<Option<Ref>>, Memory>
    ensures { IfOk result (λ v. v.items ≡ map (own_entry m) fresh.now) }
{
    let mut slots = Vec::new(alloc);
    for f in fresh {
        slots.push(Some(Ref::Own { unit: m, func: *f }))?;
    }
    Ok(slots)
}

// Where the element segments of a member go.
fn member_elems(
    alloc: Global,
    bases: &[Option<u32>],
    checked: &Checked,
) -> Result<Vec<Option<u32>>, Memory>
    ensures { IfOk result (λ v. v.items ≡ map (elem_offset (number_with bases.now)) checked.now.elems) }
{
    let ats = elems_at(alloc, bases, checked.module().elems.items())?;
    Ok(ats)
}

// And its data segments.
fn member_datas(
    alloc: Global,
    bases: &[Option<u32>],
    checked: &Checked,
) -> Result<Vec<Option<u32>>, Memory>
    ensures { IfOk result (λ v. v.items ≡ map (data_offset (number_with bases.now)) checked.now.datas) }
{
    let ats = datas_at(alloc, bases, checked.module().datas.items())?;
    Ok(ats)
}

// How a member is placed.
fn placement_of(alloc: Global, linked: &Linked, m: u32) -> Result<Placement, Memory>
    requires { m < length linked.now.set.members }
    ensures { IfOk result (λ p. IsPlacement linked.now m p) }
{
    slots_fit();
    linked.links();
    let bases = bases_of(alloc, linked, m)?;
    let checked = &linked.member(m).checked;
    let elems = member_elems(alloc, &bases, checked)?;
    let datas = member_datas(alloc, &bases, checked)?;
    let slots = slots_of(alloc, m, linked.fresh(m))?;
    Ok(Placement {
        elems,
        datas,
        slots,
    })
}

// How each member is placed, in order.
pub(crate) fn placements_of(alloc: Global, linked: &Linked) -> Result<Vec<Placement>, Memory>
    ensures { IfOk result (λ ps. ArePlacements linked.now ps.items) }
{
    let count = linked.member_count();
    let mut placements = Vec::new(alloc);
    for m in 0..count {
        let placement = placement_of(alloc, linked, m)?;
        placements.push(placement)?;
    }
    Ok(placements)
}
