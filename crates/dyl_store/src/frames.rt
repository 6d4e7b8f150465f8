// The frame of the loader on top, over any view.
ghost use Rattle.std.specs.Prelude.{◌≡◌, [], length, Some, IfOk, OnOk, OnErr, MatchOption};
ghost use Rattle.wasm_form.specs.declared.runtime.Ref.{Ref as Reference};
ghost use Rattle.spec_loading.specs.spec_binary.Indices.{nullary};
ghost use Rattle.spec_loading.specs.spec_execution.Views.{type_of as type_seen};
ghost use Rattle.spec_loading.specs.Members.{set_view};
ghost use Rattle.spec_loading.specs.Loading.{Loading};
ghost use Rattle.wasm_machine.specs.Machines.{IsMarked};
ghost use Rattle.dyl_frames.specs.Cores.{IsCore, IsLoaded, IsOwn, StepsFrom, WantsFrom, TellsDeep, top_frame};
ghost use Rattle.dyl_store.specs.Runs.{IsPlacing, NonePlaces, Serves};

use crate::callees::callee;
use dyl_frames::{After, Core, Task, is_place};
use dyl_link::Linked;
use std::alloc::Global;
use wasm_form::{Memory, Ref};
use wasm_machine::{Event, Standing, View};

// What follows the last task of the frame, where the entry is this function.
fn follow<'m, V: View<'m>>(
    core: &mut Core<'m>,
    alloc: Global,
    view: &V,
    linked: &Linked,
    entry: Ref,
) -> Result<Event, Memory>
    requires core { IsCore (V.seen view.now).fixed (V.seen view.now).units (V.seen view.now).memory core.old }
    requires marked { IsMarked core.old.machine }
    requires last { (top_frame core.old).tasks ≡ [] }
    requires members { length core.old.stages ≡ length linked.now.set.members }
    requires nullary { type_seen (V.seen view.now).fixed entry ≡ Some nullary }
    requires own { IsOwn entry }
    ensures stepped { IfOk result (λ e. (D : Loading V.Units) → IsLoaded D (V.seen view.now).fixed → Serves linked.now entry D → StepsFrom D e core.old (V.seen view.now) core.new (V.seen view.now)) }
    ensures core { OnOk result (IsCore (V.seen view.now).fixed (V.seen view.now).units (V.seen view.now).memory core.new) }
    ensures members { OnOk result (length core.new.stages ≡ length core.old.stages) }
    ensures wanting { OnErr result ((D : Loading V.Units) → WantsFrom D core.old (V.seen view.now)) }
{
    match core.follows(view) {
        After::CallEntry => core.enter(alloc, view, entry),
        After::GiveHandle(m) => {
            core.hand_over(view, m);
            Ok(Event::Moved)
        }
        After::GiveAndPromote(m) => {
            core.promote(view, linked, m);
            Ok(Event::Moved)
        }
    }
}

// The next task, if it places its member and that hasn't come so far.
pub(crate) fn placing<'m, V: View<'m>>(core: &Core<'m>, view: &V) -> Option<Task>
    requires core { IsCore (V.seen view.now).fixed (V.seen view.now).units (V.seen view.now).memory core.now }
    requires marked { IsMarked core.now.machine }
    ensures { MatchOption result (NonePlaces core.now) (IsPlacing core.now) }
{
    match core.next_task(view) {
        Some(task) => {
            if !is_place(task.phase) {
                return None;
            }
            if !core.is_behind(task) {
                return None;
            }
            Some(task)
        }
        None => None,
    }
}

// A step of the loader that places no member, where the entry is this function.
pub(crate) fn proceed<'m, V: View<'m>>(
    core: &mut Core<'m>,
    alloc: Global,
    view: &V,
    linked: &Linked,
    entry: Ref,
) -> Result<Event, Memory>
    requires core { IsCore (V.seen view.now).fixed (V.seen view.now).units (V.seen view.now).memory core.old }
    requires marked { IsMarked core.old.machine }
    requires none { NonePlaces core.old }
    requires members { length core.old.stages ≡ length linked.now.set.members }
    requires types { (r : Reference) → type_seen (V.seen view.now).fixed r ≡ type_seen (set_view linked.now) r }
    requires nullary { type_seen (V.seen view.now).fixed entry ≡ Some nullary }
    requires own { IsOwn entry }
    ensures stepped { IfOk result (λ e. (D : Loading V.Units) → IsLoaded D (V.seen view.now).fixed → Serves linked.now entry D → StepsFrom D e core.old (V.seen view.now) core.new (V.seen view.now)) }
    ensures core { OnOk result (IsCore (V.seen view.now).fixed (V.seen view.now).units (V.seen view.now).memory core.new) }
    ensures members { OnOk result (length core.new.stages ≡ length core.old.stages) }
    ensures wanting { OnErr result ((D : Loading V.Units) → WantsFrom D core.old (V.seen view.now)) }
{
    match core.next_task(view) {
        Some(task) => {
            if is_place(task.phase) {
                core.pass(view, task);
                return Ok(Event::Moved);
            }
            core.call_task(alloc, view, task, callee(linked, task))
        }
        None => follow(core, alloc, view, linked, entry),
    }
}

// Whether the next step of a run that goes on by itself would pass a limit of depth, where the entry is this function.
pub(crate) fn is_deep<'m, V: View<'m>>(
    core: &Core<'m>,
    view: &V,
    linked: &Linked,
    entry: Ref,
) -> bool
    requires core { IsCore (V.seen view.now).fixed (V.seen view.now).units (V.seen view.now).memory core.now }
    requires moving { core.now.machine.standing ≡ Standing.Moving }
    requires members { length core.now.stages ≡ length linked.now.set.members }
    requires types { (r : Reference) → type_seen (V.seen view.now).fixed r ≡ type_seen (set_view linked.now) r }
    requires nullary { type_seen (V.seen view.now).fixed entry ≡ Some nullary }
    ensures { (D : Loading V.Units) → IsLoaded D (V.seen view.now).fixed → Serves linked.now entry D → TellsDeep D result core.now (V.seen view.now) }
{
    if !core.is_marked() {
        return core.code_deep(view);
    }
    match core.next_task(view) {
        Some(task) => core.task_deep(view, task, callee(linked, task)),
        None => core.follow_deep(view, entry),
    }
}
