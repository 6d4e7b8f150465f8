// The functions of the phases.
ghost use Rattle.std.specs.Prelude.{◌≡◌, ◌+◌, ◌*◌, ◌<◌, ◌≤◌, ◌^◌, All, length, map, slice_get, IfOk};
ghost use Rattle.spec_loading.specs.spec_binary.WellFormed.{IsWellFormed};
ghost use Rattle.spec_loading.specs.spec_linking.Slots.{fresh_of};
ghost use Rattle.spec_loading.specs.LoadedSet as loading;
ghost use Rattle.merge_match.specs.Parts.{number_of};
ghost use Rattle.dyl_addresses.specs.Sets.{module_of};
ghost use Rattle.dyl_addresses.specs.Offsets.{HasElemOffset, HasDataOffset};
ghost use Rattle.merge_start.specs.Listed.{placed_with, calling_part, parts_of, elems_total, IsMadeOf, Fit};

use crate::numbers::{Spans, StartNumbers, call_at};
use crate::part::nullary_part;
use crate::segments::{datas_code, elems_code};
use crate::words::{call, table_init};
use dyl_addresses::bases_of;
use dyl_link::Linked;
use dyl_link::dyl_search::Member;
use merge_pieces::guarded;
use std::alloc::Global;
use wasm_form::{Instr, Memory, Module, Part};

// The slots that are written for a member: the segment that has them, the first of them, and how many they are.
#[derive(Clone, Copy)]
pub(crate) struct Slots {
    pub segment: u32,
    pub first: u32,
    pub count: u32,
}

// The code that places a member.
#[tactic(auto, using(crate::proofs::Effects::code_append))]
fn place_code(
    alloc: Global,
    n: &StartNumbers,
    at: Spans,
    bases: &[Option<u32>],
    slots: Slots,
    wasm: &Module,
) -> Result<Vec<Instr>, Memory>
    requires fit { Fit at }
    requires formed { IsWellFormed wasm.now }
    requires elems { All HasElemOffset wasm.now.elems }
    requires datas { All HasDataOffset wasm.now.datas }
    ensures { IfOk result (λ x. x.items ≡ placed_with n.now at bases.now slots.segment slots.first slots.count wasm.now) }
{
    let mut code = elems_code(alloc, n, at, bases, wasm.elems.items())?;
    let mut datas = datas_code(alloc, n, at, bases, wasm.datas.items())?;
    code.append(&mut datas)?;
    let mut written = table_init(alloc, slots.segment, 0, slots.first, slots.count)?;
    code.append(&mut written)?;
    Ok(code)
}

// The function of the phase after so many of a member, which calls what is listed for it.
fn calling_part(alloc: Global, n: &StartNumbers, m: u32, before: u32) -> Result<Part, Memory>
    requires few { m < 2 ^ 16 }
    requires guard { n.now.guard < 2 ^ 31 }
    requires phase { before < 4 }
    ensures { IfOk result (λ x. x ≡ calling_part n.now m before) }
{
    let work = call(alloc, call_at(n.calls.items(), 4 * m + before))?;
    let code = guarded(alloc, n.guard, m, before + 1, work)?;
    Ok(nullary_part(alloc, code))
}

// The four functions of a member, by the code that places it.
fn parts_of(alloc: Global, n: &StartNumbers, m: u32, place: Vec<Instr>) -> Result<Vec<Part>, Memory>
    requires few { m < 2 ^ 16 }
    requires guard { n.now.guard < 2 ^ 31 }
    ensures { IfOk result (λ x. x.items ≡ parts_of n.now m place.items) }
{
    let place = guarded(alloc, n.guard, m, 1, place)?;
    let start = calling_part(alloc, n, m, 1)?;
    let relocate = calling_part(alloc, n, m, 2)?;
    let construct = calling_part(alloc, n, m, 3)?;
    Ok(vec![in alloc; nullary_part(alloc, place), start, relocate, construct]?)
}

// How many element segments some members have. Each has fewer than 2^32.
pub(crate) fn elems_total(members: &[Member]) -> usize
    requires few { length members.now ≤ 256 }
    ensures told { result ≡ elems_total 0 (map module_of members.now) }
    ensures bounded { result ≤ 256 * 2 ^ 32 }
{
    let mut total: usize = 0;
    for member in members {
        total += member.checked.module().elems.items().len();
    }
    total
}

// The slots that are written for member m, where so many element segments come before those of slots.
pub(crate) fn slots_of(linked: &Linked, n: &StartNumbers, total: usize, m: u32) -> Slots
    requires member { m < length linked.now.set.members }
    requires total { total ≤ 256 * 2 ^ 32 }
    requires fresh { length (fresh_of linked.now m) < 2 ^ 32 }
    ensures segment { result.segment ≡ number_of (slice_get n.now.elems (total + m)) }
    ensures first { result.first ≡ loading.first_slot linked.now m }
    ensures count { result.count ≡ length (fresh_of linked.now m) }
{
    let segment = match n.elems.items().get(total + m as usize) {
        Some(e) => *e,
        None => u32::MAX,
    };
    Slots {
        segment,
        first: linked.first_slot(m),
        count: linked.fresh(m).len() as u32,
    }
}

// The four functions of member m, whose numbers stand there.
pub(crate) fn member_parts(
    alloc: Global,
    linked: &Linked,
    n: &StartNumbers,
    m: u32,
    spans: Spans,
    slots: Slots,
) -> Result<Vec<Part>, Memory>
    requires member { m < length linked.now.set.members }
    requires guard { n.now.guard < 2 ^ 31 }
    requires fit { Fit spans }
    ensures { IfOk result (λ parts. IsMadeOf linked.now n.now m spans slots parts.items) }
{
    linked.links();
    let wasm = linked.member(m).checked.module();
    let bases = bases_of(alloc, linked, m)?;
    let place = place_code(alloc, n, spans, bases.as_slice(), slots, wasm)?;
    let parts = parts_of(alloc, n, m, place)?;
    Ok(parts)
}
