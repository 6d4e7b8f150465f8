// The start-up of a linked set: its run up to the state in which its entry has just been called.
ghost use Rattle.std.specs.Prelude.{◌≡◌, ◌<◌, ◌≤◌, Ok, true, IfOk, OnOk, IfErr};
ghost use Rattle.spec_loading.specs.spec_runtime.Courses.{with_step};
ghost use Rattle.spec_snapshots.specs.Causes.{Takes, IsFirst};
ghost use Rattle.snap_merge.specs.StartUp.{IsStarting, IsAble, NoneBefore, IsUnstarted, IsMoving, MayStep, Says, Refuses, Comes};

use dyl_store::{Event, Store};
use snap_set::first_states_are_one;
use spec_snapshots::SnapFault;
use std::alloc::Global;
use wasm_form::Memory;

// Whether a further step may be made of a start-up that goes on by itself.
fn may_move(store: &Store, most: u64) -> Result<(), SnapFault>
    requires starting { IsStarting most store.now }
    requires unstarted { IsUnstarted store.now.linked store.now.run.steps }
    requires moving { IsMoving store.now.linked store.now.run.steps }
    ensures may { OnOk result (MayStep store.now.linked most store.now.run.steps) }
    ensures few { OnOk result (store.now.run.steps < most) }
    ensures says { IfErr result (λ fault. Says store.now.linked most store.now.run.steps fault) }
{
    if store.steps() >= most {
        return Err(SnapFault::Steps);
    }
    if store.deep() {
        return Err(SnapFault::Depth);
    }
    Ok(())
}

// Whether a further step may be made of a start-up whose entry isn't called yet. It has neither returned nor exited.
fn may_step(store: &Store, most: u64) -> Result<(), SnapFault>
    requires able { IsAble store.now.linked }
    requires starting { IsStarting most store.now }
    requires before { NoneBefore store.now.linked most store.now.run.steps }
    requires unstarted { IsUnstarted store.now.linked store.now.run.steps }
    ensures may { OnOk result (MayStep store.now.linked most store.now.run.steps) }
    ensures few { OnOk result (store.now.run.steps < most) }
    ensures says { IfErr result (λ fault. Says store.now.linked most store.now.run.steps fault) }
{
    first_states_are_one();
    match store.state() {
        Event::Moved => may_move(store, most),
        Event::Waits(_) => Err(SnapFault::HostCall),
        Event::Trapped(why) => Err(SnapFault::Trap(*why)),
        _ => unreachable!(),
    }
}

// Makes steps of code, which don't call the entry.
fn advance(alloc: Global, store: &mut Store, most: u64) -> Result<(), Memory>
    requires starting { IsStarting most store.old }
    requires before { NoneBefore store.old.linked most store.old.run.steps }
    requires unstarted { IsUnstarted store.old.linked store.old.run.steps }
    ensures starting { OnOk result (IsStarting most store.new) }
    ensures before { OnOk result (NoneBefore store.new.linked most store.new.run.steps) }
    ensures unstarted { OnOk result (IsUnstarted store.new.linked store.new.run.steps) }
    ensures more { store.old.run.steps ≤ store.new.run.steps }
    ensures same { store.new.linked ≡ store.old.linked }
{
    store.advance(alloc, most)?;
    Ok(())
}

// Makes the next step.
fn make_step(alloc: Global, store: &mut Store, most: u64) -> Result<(), Memory>
    requires starting { IsStarting most store.old }
    requires few { store.old.run.steps < most }
    requires may { MayStep store.old.linked most store.old.run.steps }
    ensures made { OnOk result (store.new.run ≡ with_step store.old.run) }
    ensures same { store.new.linked ≡ store.old.linked }
{
    let event = store.run_step(alloc)?;
    drop(event);
    Ok(())
}

// Goes on with a start-up, unless its entry was called. Whether it does.
fn goes_on(alloc: Global, store: &mut Store, most: u64) -> Result<bool, SnapFault>
    requires able { IsAble store.old.linked }
    requires starting { IsStarting most store.old }
    requires before { NoneBefore store.old.linked most store.old.run.steps }
    ensures starting { OnOk result (IsStarting most store.new) }
    ensures before { OnOk result (NoneBefore store.new.linked most store.new.run.steps) }
    ensures comes { IfOk result (λ goes. Comes store.new.linked most store.new.run.steps goes) }
    ensures more { result ≡ Ok true → store.old.run.steps < store.new.run.steps }
    ensures refuses { IfErr result (λ fault. Refuses store.old.linked most fault) }
    ensures same { store.new.linked ≡ store.old.linked }
{
    if store.started() {
        return Ok(false);
    }
    advance(alloc, store, most)?;
    match may_step(store, most) {
        Ok(()) => {
            make_step(alloc, store, most)?;
            Ok(true)
        }
        Err(fault) => Err(fault),
    }
}

/// Runs the start-up of a loaded set to the state in which its entry has just been called, or tells why there is none. At most so many steps are
/// made.
pub(crate) fn start_up(alloc: Global, store: &mut Store, most: u64) -> Result<(), SnapFault>
    requires able { IsAble store.old.linked }
    requires starting { IsStarting most store.old }
    requires opened { store.old.run.steps ≡ 0 }
    ensures starting { OnOk result (IsStarting most store.new) }
    ensures first { OnOk result (IsFirst store.old.linked most store.new.run.steps Takes) }
    ensures refuses { IfErr result (λ fault. Refuses store.old.linked most fault) }
    ensures same { store.new.linked ≡ store.old.linked }
{
    'start: while goes_on(alloc, store, most)? {}
    Ok(())
}
