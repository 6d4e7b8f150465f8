// The slots that members' regions give their functions, and the functions that have none there.
ghost use Rattle.std.specs.Prelude.{◌≡◌, ℕ, ◌<◌, ◌^◌, length, IfOk, None, slice_index_or};
ghost use Rattle.spec_loading.specs.spec_linking.LinkedSets.{LinkedSet};
ghost use Rattle.spec_loading.specs.spec_linking.Slots.{segment_slot, defined_functions};
ghost use Rattle.dyl_slots.specs.Given.{IsAt, IsSegmentedOf};

use crate::defined::{defined_functions, functions_count};
use crate::fresh::without_slot;
use crate::placings::{Bases, Names, base_numbers, placings_of};
use crate::regions::segment_slots;
use dyl_imports::dyl_scope::DistinctNumbers;
use dyl_imports::dyl_search::Member;
use std::alloc::Global;
use wasm_form::{List, Memory, Ref};

// Of a member: the functions that it defines under names, the slots that its region gives its functions, by their numbers, and those of the
// defined ones that have none there.
#[derive(Drop)]
pub(crate) struct Segmented {
    pub defined: DistinctNumbers,
    pub segments: Vec<Option<u32>>,
    pub fresh: List<u32>,
}

// The slots that the region of member m gives its functions, of which there are so many.
fn segments_of(
    alloc: Global,
    member: &Member,
    m: u32,
    functions: &[Ref],
    bases: Bases,
    count: usize,
) -> Result<Vec<Option<u32>>, Memory>
    requires at { (L : LinkedSet) × IsAt L m member.now functions.now bases }
    ensures count { IfOk result (λ v. length v.items ≡ count) }
    ensures slots { IfOk result (λ v. (L : LinkedSet) → IsAt L m member.now functions.now bases → (f : ℕ) → f < count → slice_index_or v.items f None ≡ segment_slot L m f) }
{
    let wasm = member.checked.module();
    let globals = base_numbers(alloc, bases, wasm.imports.items())?;
    let names = Names {
        functions,
        globals: globals.as_slice(),
    };
    let placings = placings_of(alloc, wasm, &names)?;
    segment_slots(
        alloc,
        &placings,
        bases.table,
        member.dylink.table_size,
        m,
        count,
    )
}

pub(crate) fn member_segments(
    alloc: Global,
    member: &Member,
    m: u32,
    functions: &[Ref],
    bases: Bases,
) -> Result<Segmented, Memory>
    requires at { (L : LinkedSet) × IsAt L m member.now functions.now bases }
    ensures exact { IfOk result (λ s. (L : LinkedSet) → IsAt L m member.now functions.now bases → IsSegmentedOf L m s) }
    ensures few { IfOk result (λ s. length s.fresh < 2 ^ 32) }
{
    let wasm = member.checked.module();
    let count = functions_count(wasm);
    let slots = segments_of(alloc, member, m, functions, bases, count)?;
    let defined = defined_functions(alloc, wasm, count)?;
    let fresh = without_slot(alloc, defined.list(), &slots)?;
    Ok(Segmented {
        defined,
        segments: slots,
        fresh,
    })
}
