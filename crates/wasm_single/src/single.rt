// The run of one module.
ghost use Rattle.std.specs.Prelude.{◌≡◌, ◌<◌, ◌⊎◌, map, true, false, IfOk, OnOk, OnErr, Ok, Err};
ghost use Rattle.spec_safety.specs.spec_runtime.Recorded.{has_ended};
ghost use Rattle.spec_safety.specs.spec_execution.Instances.{imported_hosts, module_hosts};
ghost use Rattle.spec_safety.specs.spec_execution.OneModule.{ModuleState};
ghost use Rattle.host_table.specs.Names.{host_name_of};
ghost use Rattle.spec_safety.specs.spec_runtime.Courses.{state_at, status_at, memory_at, IsAt, is_waiting, with_answer, as_lost};
ghost use Rattle.wasm_machine.specs.Steps.{RunStepped, ArgumentsFit, Advances, AreOfCode, Awaits};
ghost use Rattle.wasm_single.specs.Starts.{opened};
ghost use Rattle.wasm_single.specs.Cores.{IsCodeNext};
ghost use Rattle.wasm_single.specs.Singles.{module_course, MayWantAt};

use crate::module_run::ModuleRun;
use host_table::HostName;
use std::alloc::Global;
use std::marker::Model;
use wasm_check::Checked;
use wasm_form::{List, Memory};
use wasm_machine::{Answer, Event};
use wasm_recorder::Recorder;
use wasm_space::Space;

/// The run of one module with host imports alone: its steps, and the answers of its host. Contracts see it as a `SingleRun`.
#[derive(Drop)]
pub struct Single<'m> {
    pub(crate) run: Recorder<Checked, ModuleRun<'m>>,
}

impl<'m> Model for Single<'m> {
    ghost use Rattle.wasm_form.specs.contracts.module.Module as modules;
    ghost use Rattle.std.specs.Coded.{codes};
    ghost use Rattle.wasm_single.specs.Singles.{SingleRun};

    ghost Value = { SingleRun };

    ghost coded = { Prim.hlevel (codes, modules.the_row.coded) };

    ghost view = { λ i. record { wasm = i.run.of; run = i.run.run } };
}

impl<'m> Single<'m> {
    /// Makes one step, which takes the answer that is recorded for a wait, and tells how the run stands then. An end is told again,
    /// `Deep` where the step would pass a limit of depth, with nothing changed. It takes memory only where the next step calls a
    /// function or grows a memory or a table; a run that answered `Memory` answers it from then on.
    pub fn run_step(&mut self, alloc: Global) -> Result<Event, Memory>
        requires answered { (opening : ModuleState) → opened self.old.wasm ≡ Ok opening → self.old.run.lost ≡ false → is_waiting (module_course self.old.wasm opening) self.old.run ≡ false }
        requires few { self.old.run.steps < 18446744073709551615 }
        ensures stepped { IfOk result (λ e. (opening : ModuleState) × (opened self.old.wasm ≡ Ok opening) × IsAt (module_course self.old.wasm opening) self.old.run × RunStepped (module_course self.old.wasm opening) e self.old.run self.new.run) }
        ensures wanting { OnErr result ((self.old.run.lost ≡ true) ⊎ MayWantAt self.old.wasm self.old.run) }
        ensures lost { OnErr result (self.new.run ≡ as_lost self.old.run) }
        ensures again { self.old.run.lost ≡ true → result ≡ Err (record {}) }
        ensures arguments { IfOk result (λ e. ArgumentsFit (module_hosts self.old.wasm) e) }
        ensures same { self.new.wasm ≡ self.old.wasm }
    {
        self.run.stands();
        self.run.run_step(alloc)
    }

    /// Makes steps of code, up to so many in all, until one is left for `run_step`: a call of the module's start or entry, of a host
    /// function, or one that is too deep; or the run has ended or waits. It takes memory only as a step does.
    pub fn advance(&mut self, alloc: Global, most: u64) -> Result<(), Memory>
        ensures advances { Advances most self.old.run self.new.run }
        ensures code { (opening : ModuleState) → opened self.old.wasm ≡ Ok opening → AreOfCode (module_course self.old.wasm opening) self.old.run self.new.run }
        ensures left { (opening : ModuleState) → opened self.old.wasm ≡ Ok opening → OnOk result (self.new.run.steps < most → IsCodeNext self.old.wasm (state_at (module_course self.old.wasm opening) self.new.run) → ⊥) }
        ensures found { OnOk result (self.new.run.lost ≡ false) }
        ensures wanting { OnErr result ((self.old.run.lost ≡ true) ⊎ MayWantAt self.old.wasm self.new.run) }
        ensures lost { OnErr result (self.new.run.lost ≡ true) }
        ensures again { self.old.run.lost ≡ true → result ≡ Err (record {}) }
        ensures same { self.new.wasm ≡ self.old.wasm }
    {
        self.run.stands();
        self.run.advance(alloc, most)
    }

    /// Records the answer that the next step takes.
    pub fn answer(&mut self, alloc: Global, a: Answer) -> Result<(), Memory>
        requires { (opening : ModuleState) × (opened self.old.wasm ≡ Ok opening) × Awaits (module_course self.old.wasm opening) self.old.run a }
        ensures recorded { OnOk result (self.new.run ≡ with_answer self.old.run a) }
        ensures lost { OnErr result (self.new.run ≡ as_lost self.old.run) }
        ensures same { self.new.wasm ≡ self.old.wasm }
    {
        self.run.answer(alloc, a)
    }

    /// Whether it waits for an answer that isn't recorded.
    pub fn waiting(&self) -> bool
        ensures { self.now.run.lost ≡ false → (opening : ModuleState) → opened self.now.wasm ≡ Ok opening → result ≡ is_waiting (module_course self.now.wasm opening) self.now.run }
    {
        self.run.waiting()
    }

    /// Whether it has returned, exited or trapped.
    pub fn has_ended(&self) -> bool
        ensures { self.now.run.lost ≡ false → (opening : ModuleState) → opened self.now.wasm ≡ Ok opening → result ≡ has_ended (status_at (module_course self.now.wasm opening) self.now.run) }
    {
        self.run.has_ended()
    }

    /// How many steps were made. The run stands where these lead.
    pub fn steps(&self) -> u64
        ensures value { result ≡ self.now.run.steps }
        ensures stands { self.now.run.lost ≡ false → (opening : ModuleState) × (opened self.now.wasm ≡ Ok opening) × IsAt (module_course self.now.wasm opening) self.now.run }
    {
        self.run.stands();
        self.run.steps()
    }

    /// The answers that are recorded, in order.
    pub fn answers(&self) -> &[Answer]
        ensures { result.now ≡ self.now.run.answers }
    {
        self.run.answers()
    }

    /// The answers themselves.
    pub fn into_answers(self) -> List<Answer>
        ensures { result ≡ self.entry.run.answers }
    {
        self.run.into_answers()
    }

    /// The memory as the run stands.
    pub fn memory(&self) -> &Space
        ensures { self.now.run.lost ≡ false → (opening : ModuleState) → opened self.now.wasm ≡ Ok opening → result.now ≡ memory_at (module_course self.now.wasm opening) self.now.run }
    {
        self.run.memory()
    }

    /// The host functions that the module imports, in order.
    pub fn hosts(&self) -> &[HostName]
        ensures { map host_name_of result.now ≡ imported_hosts self.now.wasm self.now.wasm.imports }
    {
        self.run.hosts()
    }
}
