// A loaded set in its run, without what is counted and recorded of it.
ghost use Rattle.std.specs.Prelude.{◌≡◌, ◌≢◌, ◌<◌, false, Some, IfOk, OnOk, OnErr};
ghost use Rattle.spec_loading.specs.LoadedSet.{set_loading};
ghost use Rattle.spec_loading.specs.Members.{set_view};
ghost use Rattle.spec_loading.specs.spec_safety.ValueTypes.{IsOfBytes};
ghost use Rattle.wasm_machine.specs.Machines.{IsMarked};
ghost use Rattle.spec_loading.specs.spec_binary.Indices.{nullary};
ghost use Rattle.spec_loading.specs.spec_execution.Views.{type_of as type_seen};
ghost use Rattle.dyl_frames.specs.Cores.{is_mark, FitsHost, IsOwn, TakenFrom};
ghost use Rattle.dyl_store.specs.Worlds.{seen_of};
ghost use Rattle.dyl_store.specs.Runs.{IsRunning, IsSomewhere, IsPlacing, StepsTo, RunsTo, WantsTo, IsDeepTo, IsStartedTo};
ghost use Rattle.dyl_store.specs.Calls.{is_loader};

use crate::frames::{is_deep, placing, proceed};
use crate::place_member::Placement;
use crate::world::World;
use dyl_frames::{Core, Task};
use dyl_link::Linked;
use spec_loading::{linked_functions_are_typed, linked_sets_step_soundly};
use std::alloc::Global;
use wasm_form::{Memory, Ref};
use wasm_machine::{Answer, Done, Event, Standing};

// A linked set, its members over the store, the machine with the frames of the loader, and how each member is placed.
#[derive(Drop)]
pub(crate) struct Running<'m> {
    pub linked: &'m Linked,
    pub world: World<'m>,
    pub core: Core<'m>,
    pub placements: Vec<Placement>,
}

// The entry of a linked set.
fn entry_of(linked: &Linked) -> Ref
    ensures is { (set_loading linked.now).entry ≡ Some result }
    ensures own { IsOwn result }
    ensures nullary { type_seen (set_view linked.now) result ≡ Some nullary }
{
    linked_functions_are_typed();
    linked.links();
    Ref::Own {
        unit: 0,
        func: linked.entry(),
    }
}

// Whether a mark is on top.
fn is_mark(event: &Event) -> bool
    ensures { result ≡ is_mark event.now }
{
    matches!(event, Event::Marked(_))
}

impl<'m> Running<'m> {
    // One step of a run that goes on by itself.
    pub fn step(&mut self, alloc: Global) -> Result<Event, Memory>
        requires running { IsRunning self.old }
        requires stands { IsSomewhere self.old }
        requires moving { self.old.core.machine.standing ≡ Standing.Moving }
        ensures stepped { IfOk result (λ e. StepsTo self.old.linked.now e self.old self.new) }
        ensures wanting { OnErr result (WantsTo self.old) }
        ensures answered { IfOk result (λ e. is_loader e ≡ false) }
        ensures running { OnOk result (IsRunning self.new) }
        ensures linked { self.new.linked ≡ self.old.linked }
    {
        let event = self.next(alloc)?;
        match event {
            Event::Loader {
                call,
                first,
                second,
            } => self.answer(alloc, call, first, second),
            event => Ok(event),
        }
    }

    // The same up to a call of a function of the loader, which is still to be answered.
    fn next(&mut self, alloc: Global) -> Result<Event, Memory>
        requires running { IsRunning self.old }
        requires stands { IsSomewhere self.old }
        requires moving { self.old.core.machine.standing ≡ Standing.Moving }
        ensures stepped { IfOk result (λ e. StepsTo self.old.linked.now e self.old self.new) }
        ensures wanting { OnErr result (WantsTo self.old) }
        ensures running { OnOk result (IsRunning self.new) }
        ensures linked { self.new.linked ≡ self.old.linked }
    {
        let event = self.core.step(alloc, &mut self.world)?;
        if is_mark(&event) {
            return self.load(alloc);
        }
        Ok(event)
    }

    // Steps of code, so many or fewer, where the machine can tell them in few bytes: how many were made, and what the next one came to.
    pub fn run(&mut self, alloc: Global, most: u64) -> (u64, Done)
        requires running { IsRunning self.old }
        requires moving { self.old.core.machine.standing ≡ Standing.Moving }
        ensures ran { RunsTo self.old.linked.now result.0 result.1 self.old self.new }
        ensures running { result.1 ≢ Done.NoMemory → IsRunning self.new }
        ensures linked { self.new.linked ≡ self.old.linked }
        ensures most { result.1 ≡ Done.Goes → result.0 ≡ most }
        ensures fewer { result.1 ≢ Done.Goes → result.0 < most }
    {
        self.core.run(alloc, &mut self.world, most)
    }

    // Takes the answer of the host function that is waited for.
    pub fn take(&mut self, a: &Answer)
        requires running { IsRunning self.old }
        requires fits { FitsHost (set_view self.old.world.linked) self.old.world.memory a.now self.old.core.machine.standing }
        requires bytes { IsOfBytes a.now }
        ensures taken { TakenFrom (set_loading self.old.linked.now) a.now self.old.core (seen_of self.old.world) self.new.core (seen_of self.new.world) }
        ensures running { IsRunning self.new }
        ensures linked { self.new.linked ≡ self.old.linked }
    {
        self.core.take(&mut self.world, a);
    }

    // The loader does the next task of its frame, or what follows the last.
    fn load(&mut self, alloc: Global) -> Result<Event, Memory>
        requires running { IsRunning self.old }
        requires stands { IsSomewhere self.old }
        requires marked { IsMarked self.old.core.machine }
        ensures stepped { IfOk result (λ e. StepsTo self.old.linked.now e self.old self.new) }
        ensures wanting { OnErr result (WantsTo self.old) }
        ensures running { OnOk result (IsRunning self.new) }
        ensures linked { self.new.linked ≡ self.old.linked }
    {
        match placing(&self.core, &self.world) {
            Some(task) => Ok(self.place(task)),
            None => proceed(
                &mut self.core,
                alloc,
                &self.world,
                self.linked,
                entry_of(self.linked),
            ),
        }
    }

    // The member of the next task is placed.
    fn place(&mut self, task: Task) -> Event
        requires running { IsRunning self.old }
        requires stands { IsSomewhere self.old }
        requires marked { IsMarked self.old.core.machine }
        requires placing { IsPlacing self.old.core task }
        ensures stepped { StepsTo self.old.linked.now result self.old self.new }
        ensures running { IsRunning self.new }
        ensures linked { self.new.linked ≡ self.old.linked }
    {
        linked_sets_step_soundly();
        let placement = &self.placements[task.member as usize];
        let outcome = self.world.place(self.linked, task.member, placement);
        self.core.placed(&self.world, task, outcome)
    }
}

// ---- the depth of the next step

impl<'m> Running<'m> {
    // Whether the next step of a run that goes on by itself would pass a limit of depth.
    pub fn deep(&self) -> bool
        requires running { IsRunning self.now }
        requires moving { self.now.core.machine.standing ≡ Standing.Moving }
        ensures { IsDeepTo self.now.linked.now result self.now }
    {
        is_deep(&self.core, &self.world, self.linked, entry_of(self.linked))
    }
}

// ---- whether start-up is done

impl<'m> Running<'m> {
    // Whether the entry was called, and the run goes on.
    pub fn started(&self) -> bool
        requires running { IsRunning self.now }
        ensures { IsStartedTo self.now.linked.now result self.now }
    {
        self.core.started(&self.world)
    }
}
