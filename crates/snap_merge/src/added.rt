// What the loader keeps, as the merged module has it behind what the members have.
ghost use Rattle.std.specs.Prelude.{◌≡◌, ◌≤◌, ◌<◌, ◌++◌, ◌∷◌, [], length, take, slice_get, false, IfOk, OnOk};
ghost use Rattle.spec_loading.specs.SoundLoading.{IsSoundLoader};
ghost use Rattle.spec_loading.specs.spec_runtime.Courses.{state_at};
ghost use Rattle.spec_loading.specs.spec_linking.Slots.{fresh_of};
ghost use Rattle.spec_loading.specs.Members.{from_members};
ghost use Rattle.dyl_store.specs.Stores.{set_course};
ghost use Rattle.merge_start.specs.Started.{place_of};
ghost use Rattle.merge_whole.specs.Counts.{members_of};
ghost use Rattle.snap_parts.specs.Built.{is_left};
ghost use Rattle.snap_merge.specs.Added.{one_place, left_by, one_left, IsBehind};

use dyl_link::Linked;
use dyl_link::dyl_search::Member;
use dyl_store::Store;
use std::alloc::Global;
use wasm_form::Memory;

// The numbers that are globals, and of each element segment whether it is left.
#[derive(Drop)]
pub(crate) struct Behind {
    pub globals: Vec<u32>,
    pub left: Vec<bool>,
}

// The stages of the members.
fn stages(alloc: Global, store: &Store, count: u32) -> Result<Vec<u32>, Memory>
    requires count { count ≡ length store.now.linked.set.members }
    requires found { store.now.run.lost ≡ false }
    ensures { IfOk result (λ v. v.items ≡ take count (state_at (set_course store.now.linked) store.now.run).loader.stages) }
{
    let mut all = Vec::new(alloc);
    for m in 0..count {
        all.push(u32::from(store.stage(m)))?;
    }
    Ok(all)
}

// The place of a member among the promoted ones, counted from 1, or 0 where it is none of them.
fn place_of(promoted: &[u32], m: u32) -> u32
    requires { length promoted.now ≤ 256 }
    ensures { result ≡ place_of promoted.now m }
{
    let mut place: u32 = 0;
    for other in promoted {
        place += 1;
        if *other == m {
            return place;
        }
    }
    0
}

// Adds the place of each member.
fn put_places(to: &mut Vec<u32>, members: &[Member], promoted: &[u32]) -> Result<(), Memory>
    requires members { length members.now ≤ 256 }
    requires promoted { length promoted.now ≤ 256 }
    ensures { OnOk result (to.new.items ≡ to.old.items ++ from_members (one_place promoted.now) 0 (members_of members.now)) }
{
    let mut m: u32 = 0;
    for _member in members {
        to.push(place_of(promoted, m))?;
        m += 1;
    }
    Ok(())
}

// Adds the last error, how many members are promoted, and the place of each member.
fn put_loader(
    to: &mut Vec<u32>,
    members: &[Member],
    error: u8,
    promoted: &[u32],
) -> Result<(), Memory>
    requires members { length members.now ≤ 256 }
    requires promoted { length promoted.now ≤ 256 }
    ensures { OnOk result (to.new.items ≡ to.old.items ++ error ∷ length promoted.now ∷ from_members (one_place promoted.now) 0 (members_of members.now)) }
{
    to.push(u32::from(error))?;
    to.push(promoted.len() as u32)?;
    put_places(to, members, promoted)
}

// The stage of a member, if there is one.
fn stage_at(stages: &[u32], m: u32) -> Option<u32>
    ensures { result ≡ slice_get stages.now m }
{
    stages.get(m as usize).copied()
}

// Whether a member has fresh slots.
fn has_slots(linked: &Linked, m: u32) -> bool
    requires { m < length linked.now.set.members }
    ensures { result ≡ is_left (fresh_of linked.now m) }
{
    !linked.fresh(m).is_empty()
}

// Whether the segment of the fresh slots of a member is left.
fn is_left(linked: &Linked, stages: &[u32], m: u32) -> bool
    requires { m < length linked.now.set.members }
    ensures { result ≡ left_by stages.now linked.now m }
{
    let some = has_slots(linked, m);
    match stage_at(stages, m) {
        Some(stage) => stage == 0 && some,
        None => false,
    }
}

// Of the segments of fresh slots, and of the two behind them, whether they are left.
fn segments_left(alloc: Global, linked: &Linked, stages: &[u32]) -> Result<Vec<bool>, Memory>
    ensures { IfOk result (λ v. v.items ≡ from_members (one_left stages.now linked.now) 0 linked.now.set.members ++ false ∷ false ∷ []) }
{
    let mut all = Vec::new(alloc);
    for m in 0..linked.member_count() {
        all.push(is_left(linked, stages, m))?;
    }
    all.push(false)?;
    all.push(false)?;
    Ok(all)
}

/// What a run of a linked set has behind what its members have.
pub(crate) fn read_behind(alloc: Global, linked: &Linked, store: &Store) -> Result<Behind, Memory>
    requires same { store.now.linked ≡ linked.now }
    requires found { store.now.run.lost ≡ false }
    requires sound { IsSoundLoader (length linked.now.set.members) (state_at (set_course linked.now) store.now.run).loader }
    ensures { IfOk result (λ b. IsBehind linked.now (state_at (set_course linked.now) store.now.run).loader b) }
{
    let members = linked.members();
    let mut globals = stages(alloc, store, linked.member_count())?;
    let left = segments_left(alloc, linked, &globals)?;
    if !linked.uses_loader() {
        return Ok(Behind { globals, left });
    }
    put_loader(&mut globals, members, store.error(), store.promoted())?;
    Ok(Behind { globals, left })
}
