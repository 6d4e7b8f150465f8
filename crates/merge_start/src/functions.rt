// The functions of the phases of all members.
ghost use Rattle.std.specs.Prelude.{◌≡◌, ◌<◌, ◌^◌, IfOk};
ghost use Rattle.spec_loading.specs.Members.{from_members};
ghost use Rattle.merge_match.specs.Renumbering.{Numbers};
ghost use Rattle.merge_start.specs.Words.{Starts};
ghost use Rattle.merge_start.specs.Listed.{AreListed, phase_parts};

use crate::numbers::{Places, StartNumbers, behind, spans_at};
use crate::phases::{elems_total, member_parts, slots_of};
use dyl_link::Linked;
use std::alloc::Global;
use wasm_form::{List, Memory, Part};

/// The functions of the phases of a linked set, four for each member. `Memory` where no memory could be had.
pub fn phase_functions(
    alloc: Global,
    linked: &Linked,
    n: &StartNumbers,
) -> Result<List<Part>, Memory>
    requires guard { n.now.guard < 2 ^ 31 }
    ensures { IfOk result (λ parts. (N : Numbers) (x : Starts) → AreListed linked.now n.now N x → parts ≡ from_members (phase_parts linked.now N x) 0 linked.now.set.members) }
{
    linked.links();
    let total = elems_total(linked.members());
    let mut parts = Vec::new(alloc);
    let mut at = Places {
        elems: 0,
        datas: 0,
        tables: 0,
    };
    for m in 0..linked.member_count() {
        let spans = spans_at(at, linked.member(m).checked.module());
        let slots = slots_of(linked, n, total, m);
        let mut four = member_parts(alloc, linked, n, m, spans, slots)?;
        parts.append(&mut four)?;
        at = behind(spans);
    }
    Ok(List::of(parts))
}
