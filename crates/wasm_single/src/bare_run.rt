// The run of a module without what is counted and recorded of it.
ghost use Rattle.std.specs.Prelude.{◌≡◌, ◌≢◌, ◌<◌, IfOk, OnOk, OnErr, Some};
ghost use Rattle.spec_safety.specs.spec_execution.Instances.{module_view};
ghost use Rattle.spec_safety.specs.spec_execution.OneModule.{ModuleState};
ghost use Rattle.spec_safety.specs.spec_execution.Runs.{taken};
ghost use Rattle.wasm_machine.specs.Machines.{IsClear, IsOver};
ghost use Rattle.wasm_single.specs.Singles.{MayWant};
ghost use Rattle.wasm_single.specs.Cores.{IsCore, IsState, IsStartable, Steps, RunsTo, Calls, MayTake, is_begun, is_mark};

use std::alloc::Global;
use wasm_check::Checked;
use wasm_form::Memory;
use wasm_instance::Instance;
use wasm_machine::{Answer, Done, Event, Machine, Standing, View};

/// How far a run has come: its call stack is still empty; a mark lies under the start function; or the entry was called.
#[derive(Clone, Copy, Debug, PartialEq, Eq)]
pub(crate) enum Phase {
    Opened,
    Marked,
    Entered,
}

/// A module, its instance and a machine over it, and what is still to be called: the start function, if there is one, and then
/// the entry.
#[derive(Drop)]
pub(crate) struct Core<'m> {
    pub checked: &'m Checked,
    pub instance: Instance<'m>,
    pub machine: Machine<'m>,
    pub start: Option<u32>,
    pub entry: u32,
    pub phase: Phase,
}

/// Whether a call was begun: it isn't too deep.
fn is_begun(event: &Event) -> bool
    ensures { result ≡ is_begun event.now }
{
    !matches!(event, Event::Deep)
}

/// Whether a mark is on top.
fn is_mark(event: &Event) -> bool
    ensures { result ≡ is_mark event.now }
{
    matches!(event, Event::Marked(_))
}

impl<'m> Core<'m> {
    /// One step of a run that goes on by itself.
    pub fn step(&mut self, alloc: Global) -> Result<Event, Memory>
        requires core { IsCore self.old }
        requires moving { self.old.machine.standing ≡ Standing.Moving }
        ensures stepped { (s : ModuleState) → IsState self.old s → IfOk result (λ e. Steps e s self.new) }
        ensures wanting { OnErr result ((s : ModuleState) → IsState self.old s → MayWant s) }
        ensures core { OnOk result (IsCore self.new) }
        ensures wasm { self.new.checked ≡ self.old.checked }
    {
        if self.phase == Phase::Opened {
            return self.begin(alloc);
        }
        let event = self.machine.step(alloc, &mut self.instance)?;
        if is_mark(&event) {
            return self.begin(alloc);
        }
        Ok(event)
    }

    /// Calls the start function, or else the entry, over the mark on top or an empty call stack.
    fn begin(&mut self, alloc: Global) -> Result<Event, Memory>
        requires core { IsCore self.old }
        requires moving { self.old.machine.standing ≡ Standing.Moving }
        requires clear { IsClear self.old.machine.stack.frames }
        ensures stepped { (s : ModuleState) → IsState self.old s → IfOk result (λ e. Steps e s self.new) }
        ensures wanting { OnErr result ((s : ModuleState) → IsState self.old s → MayWant s) }
        ensures core { OnOk result (IsCore self.new) }
        ensures wasm { self.new.checked ≡ self.old.checked }
    {
        match self.start {
            Some(f) => self.begin_start(alloc, f),
            None => self.begin_entry(alloc),
        }
    }

    /// Calls the start function over a mark.
    fn begin_start(&mut self, alloc: Global, f: u32) -> Result<Event, Memory>
        requires core { IsCore self.old }
        requires moving { self.old.machine.standing ≡ Standing.Moving }
        requires clear { IsClear self.old.machine.stack.frames }
        requires start { self.old.start ≡ Some f }
        ensures stepped { (s : ModuleState) → IsState self.old s → IfOk result (λ e. Steps e s self.new) }
        ensures core { OnOk result (IsCore self.new) }
        ensures wasm { self.new.checked ≡ self.old.checked }
    {
        self.put_mark(alloc)?;
        let event = self.call(alloc, f)?;
        if !is_begun(&event) {
            return Ok(event);
        }
        self.start = None;
        Ok(event)
    }

    /// Calls the entry over an empty call stack.
    fn begin_entry(&mut self, alloc: Global) -> Result<Event, Memory>
        requires core { IsCore self.old }
        requires moving { self.old.machine.standing ≡ Standing.Moving }
        requires clear { IsClear self.old.machine.stack.frames }
        requires started { self.old.start ≡ None }
        ensures stepped { (s : ModuleState) → IsState self.old s → IfOk result (λ e. Steps e s self.new) }
        ensures core { OnOk result (IsCore self.new) }
        ensures wasm { self.new.checked ≡ self.old.checked }
    {
        self.take_mark();
        let event = self.call(alloc, self.entry)?;
        if !is_begun(&event) {
            return Ok(event);
        }
        self.phase = Phase::Entered;
        Ok(event)
    }

    /// Puts a mark on an empty call stack; nothing is done where one is there.
    fn put_mark(&mut self, alloc: Global) -> Result<(), Memory>
        requires core { IsCore self.old }
        requires moving { self.old.machine.standing ≡ Standing.Moving }
        requires clear { IsClear self.old.machine.stack.frames }
        ensures core { OnOk result (IsCore self.new) }
        ensures same { OnOk result (self.new ≡ record self.old { machine = self.new.machine; phase = Phase.Marked }) }
        ensures moving { OnOk result (self.new.machine.standing ≡ Standing.Moving) }
        ensures clear { OnOk result (IsClear self.new.machine.stack.frames) }
        ensures stands { (s : ModuleState) → IsState self.old s → OnOk result (IsState self.new s) }
        ensures wasm { self.new.checked ≡ self.old.checked }
    {
        if self.phase == Phase::Opened {
            self.machine.mark(alloc, &self.instance, 0)?;
            self.phase = Phase::Marked;
        }
        Ok(())
    }

    /// Takes the mark on top away, if one is there.
    fn take_mark(&mut self)
        requires core { IsCore self.old }
        requires moving { self.old.machine.standing ≡ Standing.Moving }
        requires clear { IsClear self.old.machine.stack.frames }
        ensures core { IsCore self.new }
        ensures same { self.new ≡ record self.old { machine = self.new.machine; phase = Phase.Opened } }
        ensures moving { self.new.machine.standing ≡ Standing.Moving }
        ensures stands { (s : ModuleState) → IsState self.old s → IsState self.new s }
    {
        if self.phase == Phase::Marked {
            self.machine.unmark(&self.instance);
            self.phase = Phase::Opened;
        }
    }

    /// Calls a function over the mark on top or an empty call stack.
    fn call(&mut self, alloc: Global, f: u32) -> Result<Event, Memory>
        requires core { IsCore self.old }
        requires moving { self.old.machine.standing ≡ Standing.Moving }
        requires clear { IsClear self.old.machine.stack.frames }
        requires startable { IsStartable self.old.checked.now f }
        ensures told { IfOk result (λ e. Calls f self.old e self.new.machine) }
        ensures over { OnOk result (IsOver (module_view self.old.checked.now) self.old.instance.parts self.old.instance.memory self.new.machine) }
        ensures same { self.new ≡ record self.old { machine = self.new.machine } }
    {
        let r = self.instance.target(0, f);
        self.machine.begin(alloc, &self.instance, r)
    }

    /// Steps of code, so many or fewer, where the machine can tell them in few bytes: how many were made, and what the next one came to.
    pub fn run(&mut self, alloc: Global, most: u64) -> (u64, Done)
        requires core { IsCore self.old }
        requires moving { self.old.machine.standing ≡ Standing.Moving }
        requires called { self.old.phase ≢ Phase.Opened }
        ensures ran { (s : ModuleState) → IsState self.old s → RunsTo result.0 result.1 s self.new }
        ensures core { result.1 ≢ Done.NoMemory → IsCore self.new }
        ensures wasm { self.new.checked ≡ self.old.checked }
        ensures most { result.1 ≡ Done.Goes → result.0 ≡ most }
        ensures fewer { result.1 ≢ Done.Goes → result.0 < most }
    {
        self.machine.run(alloc, &mut self.instance, most)
    }

    /// Takes the answer of the host function that is waited for.
    pub fn take(&mut self, a: &Answer)
        requires core { IsCore self.old }
        requires fits { MayTake self.old a.now }
        ensures taken { (s : ModuleState) → IsState self.old s → IsState self.new (taken a.now s) }
        ensures core { IsCore self.new }
        ensures wasm { self.new.checked ≡ self.old.checked }
    {
        self.machine.answer(&mut self.instance, a);
    }
}
