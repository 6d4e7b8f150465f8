// The run of a linked set.
ghost use Rattle.std.specs.Prelude.{◌≡◌, ◌<◌, ◌⊎◌, length, map, true, false, Some, IfOk, OnOk, OnErr, Err};
ghost use Rattle.spec_loading.specs.SoundSets.{HoldBytes};
ghost use Rattle.spec_loading.specs.spec_runtime.Recorded.{has_ended};
ghost use Rattle.spec_loading.specs.spec_linking.Gathering.{IsSet};
ghost use Rattle.spec_loading.specs.spec_linking.LinkedSets.{set_hosts, hosts_of};
ghost use Rattle.spec_loading.specs.spec_linking.Links.{Links};
ghost use Rattle.spec_loading.specs.Loading.{stage_in};
ghost use Rattle.spec_loading.specs.Members.{set_view, shared_table};
ghost use Rattle.spec_keeping.specs.Started.{is_started};
ghost use Rattle.spec_loading.specs.spec_runtime.Courses.{state_at, status_at, memory_at, IsAt, is_waiting, with_answer, as_lost};
ghost use Rattle.wasm_machine.specs.Steps.{RunStepped, TellsStatus, ArgumentsFit, Advances, AreOfCode, Awaits};
ghost use Rattle.dyl_link.specs.host_table.Names.{host_name_of};
ghost use Rattle.dyl_store.specs.Stores.{set_course, new_run, is_deep_at, units_at, IsDroppedTold, HadCodeOnTop, MayWantAt};
ghost use Rattle.dyl_store.specs.Runs.{IsRunning};
ghost use Rattle.dyl_store.specs.SetRuns.{IsTold, IsCodeNext};

use crate::running::Running;
use crate::set_run::SetRun;
use dyl_link::Linked;
use dyl_link::host_table::HostName;
use std::alloc::Global;
use std::marker::Model;
use wasm_form::{List, Memory, Ref, Value};
use wasm_machine::{Answer, Event, Standing, View, holds_bytes};
use wasm_recorder::Recorder;
use wasm_space::{Slots, Space};

/// The run of a linked set: its steps, and the answers of its host. Contracts see it as a `StoreRun`.
#[derive(Drop)]
pub struct Store<'m> {
    run: Recorder<Linked, SetRun<'m>>,
}

impl<'m> Model for Store<'m> {
    ghost use Rattle.wasm_form.specs.contracts.module.Module as modules;
    ghost use Rattle.std.specs.Coded.{codes};
    ghost use Rattle.dyl_store.specs.Stores.{StoreRun};

    ghost Value = { StoreRun };

    ghost coded = { Prim.hlevel (codes, modules.the_row.coded) };

    ghost view = { λ i. record { linked = i.run.of; run = i.run.run } };
}

// The data segments of all members are of bytes.
fn hold_bytes(linked: &Linked)
    ensures { HoldBytes linked.now }
{
    for member in linked.members() {
        holds_bytes(member.checked.module());
    }
}

impl<'m> Store<'m> {
    /// A linked set in its opening state: the loader is to open the main module and then to call the entry. `Memory` where no memory could
    /// be had.
    pub fn load(alloc: Global, linked: &'m Linked) -> Result<Store<'m>, Memory>
        ensures { IfOk result (λ s. s ≡ new_run linked.now) }
    {
        linked.links();
        linked.has_few_pages();
        hold_bytes(linked);
        let running = Running::open(alloc, linked)?;
        let event = Event::Moved;
        Ok(Store {
            run: Recorder::new(alloc, SetRun { running, event }),
        })
    }

    // Whether memory was wanting.
    fn is_lost(&self) -> bool
        ensures { result ≡ self.now.run.lost }
    {
        self.run.is_lost()
    }

    // What is run, without what is counted and recorded of it.
    fn bare(&self) -> &SetRun<'m>
        ensures linked { result.now.running.linked.now ≡ self.now.linked }
        ensures running { self.now.run.lost ≡ false → IsRunning result.now.running }
        ensures told { self.now.run.lost ≡ false → IsTold self.now.linked result.now (state_at (set_course self.now.linked) self.now.run) }
    {
        self.run.bare()
    }

    /// What is run is a set, and it links. The call does nothing: a proof gets these facts by it.
    pub fn links(&self)
        ensures shape { IsSet self.now.linked.set }
        ensures links { Links self.now.linked }
    {
        self.bare().running.linked.links();
    }

    /// The data segments of the members are of bytes. The call changes nothing: a proof gets this fact by it.
    pub fn holds_bytes(&self)
        ensures { HoldBytes self.now.linked }
    {
        hold_bytes(self.bare().running.linked);
    }

    /// Makes one step, which takes the answer that is recorded for a wait, and tells how the run stands then. An end is told again,
    /// and `Deep` where the step would pass a limit of depth, with nothing changed. It takes memory only where a frame of the loader is
    /// on top, or code that next calls a function or grows a memory or a table; a run that answered `Memory` answers it from then on.
    pub fn run_step(&mut self, alloc: Global) -> Result<Event, Memory>
        requires answered { self.old.run.lost ≡ false → is_waiting (set_course self.old.linked) self.old.run ≡ false }
        requires few { self.old.run.steps < 18446744073709551615 }
        ensures stepped { IfOk result (λ e. IsAt (set_course self.old.linked) self.old.run × RunStepped (set_course self.old.linked) e self.old.run self.new.run) }
        ensures wanting { OnErr result ((self.old.run.lost ≡ true) ⊎ MayWantAt self.old.linked self.old.run) }
        ensures lost { OnErr result (self.new.run ≡ as_lost self.old.run) }
        ensures again { self.old.run.lost ≡ true → result ≡ Err (record {}) }
        ensures arguments { IfOk result (λ e. ArgumentsFit (set_hosts self.old.linked) e) }
        ensures same { self.new.linked ≡ self.old.linked }
    {
        self.run.run_step(alloc)
    }

    /// Makes steps of code, up to so many in all, until one is left for `run_step`: a step of the loader, a call of a host function, or
    /// one that is too deep; or the run has ended or waits. It takes memory only as a step does.
    pub fn advance(&mut self, alloc: Global, most: u64) -> Result<(), Memory>
        ensures advances { Advances most self.old.run self.new.run }
        ensures code { AreOfCode (set_course self.old.linked) self.old.run self.new.run }
        ensures tops { HadCodeOnTop self.old.linked self.old.run self.new.run }
        ensures left { OnOk result (self.new.run.steps < most → IsCodeNext self.old.linked (state_at (set_course self.old.linked) self.new.run) → ⊥) }
        ensures found { OnOk result (self.new.run.lost ≡ false) }
        ensures wanting { OnErr result ((self.old.run.lost ≡ true) ⊎ MayWantAt self.old.linked self.new.run) }
        ensures lost { OnErr result (self.new.run.lost ≡ true) }
        ensures again { self.old.run.lost ≡ true → result ≡ Err (record {}) }
        ensures stays { self.old.run.lost ≡ true → self.new.run ≡ self.old.run }
        ensures same { self.new.linked ≡ self.old.linked }
    {
        self.run.advance(alloc, most)
    }

    /// Records the answer that the next step takes.
    pub fn answer(&mut self, alloc: Global, a: Answer) -> Result<(), Memory>
        requires { Awaits (set_course self.old.linked) self.old.run a }
        ensures recorded { OnOk result (self.new.run ≡ with_answer self.old.run a) }
        ensures lost { OnErr result (self.new.run ≡ as_lost self.old.run) }
        ensures same { self.new.linked ≡ self.old.linked }
    {
        self.run.answer(alloc, a)
    }

    /// Whether it waits for an answer that isn't recorded.
    pub fn waiting(&self) -> bool
        ensures { self.now.run.lost ≡ false → result ≡ is_waiting (set_course self.now.linked) self.now.run }
    {
        self.run.waiting()
    }

    /// Whether it has returned, exited or trapped.
    pub fn has_ended(&self) -> bool
        ensures { self.now.run.lost ≡ false → result ≡ has_ended (status_at (set_course self.now.linked) self.now.run) }
    {
        self.run.has_ended()
    }

    /// How the run stands: `Moved`, `Waits` with the pending call, `Returned`, `Trapped` or `Exited`. It takes no memory. Of a run that
    /// answered `Memory` nothing is said.
    pub fn state(&self) -> &Event
        ensures tells { self.now.run.lost ≡ false → TellsStatus (set_hosts self.now.linked) result.now (status_at (set_course self.now.linked) self.now.run) }
        ensures arguments { self.now.run.lost ≡ false → ArgumentsFit (set_hosts self.now.linked) result.now }
    {
        &self.bare().event
    }

    /// Whether a limit of depth is due: the run goes on by itself, and its next step would pass one. It takes no memory. Of a run that
    /// answered `Memory` nothing is said.
    pub fn deep(&self) -> bool
        ensures { self.now.run.lost ≡ false → result ≡ is_deep_at (set_course self.now.linked) self.now.run }
    {
        if self.is_lost() {
            return false;
        }
        let running = &self.bare().running;
        match running.core.standing() {
            Standing::Moving => running.deep(),
            _ => false,
        }
    }

    /// How far member m has come in the loader's phases: 0 before it is placed, and 1 to 4 once it was placed, started, relocated and
    /// constructed. It takes no memory. Of a run that answered `Memory` nothing is said.
    pub fn stage(&self, m: u32) -> u8
        requires { m < length self.now.linked.set.members }
        ensures { self.now.run.lost ≡ false → stage_in (state_at (set_course self.now.linked) self.now.run).loader m ≡ Some result }
    {
        if self.is_lost() {
            return 0;
        }
        self.bare().running.core.stages().get(m)
    }

    /// The last error of the loader, by its number, or 0. It takes no memory. Of a run that answered `Memory` nothing is said.
    pub fn error(&self) -> u8
        ensures { self.now.run.lost ≡ false → result ≡ (state_at (set_course self.now.linked) self.now.run).loader.error }
    {
        self.bare().running.core.errors().get()
    }

    /// The promoted members, in the order in which they were promoted. It takes no memory. Of a run that answered `Memory` nothing is said.
    pub fn promoted(&self) -> &[u32]
        ensures { self.now.run.lost ≡ false → result.now ≡ (state_at (set_course self.now.linked) self.now.run).loader.promoted }
    {
        self.bare().running.core.promoted().list()
    }

    /// The table that all members share. It takes no memory. Of a run that answered `Memory` nothing is said.
    pub fn shared_table(&self) -> &Slots
        ensures { self.now.run.lost ≡ false → shared_table (state_at (set_course self.now.linked) self.now.run).run.units ≡ Some result.now }
    {
        let world = &self.bare().running.world;
        &world.tables[0]
    }

    /// Whether the entry was called, and the run goes on. It takes no memory. Of a run that answered `Memory` nothing is said.
    pub fn started(&self) -> bool
        ensures { self.now.run.lost ≡ false → result ≡ is_started (state_at (set_course self.now.linked) self.now.run) }
    {
        if self.is_lost() {
            return false;
        }
        self.bare().running.started()
    }

    /// A global of member m, by its number there. It takes no memory. Of a run that answered `Memory` nothing is said.
    pub fn global(&self, m: u32, g: u32) -> Value
        requires { g < ((set_view self.now.linked).counts m).globals }
        ensures { self.now.run.lost ≡ false → (set_view self.now.linked).global (units_at self.now.linked self.now.run) m g ≡ Some result }
    {
        if self.is_lost() {
            return Value::Num(0);
        }
        self.bare().running.world.global(m, g)
    }

    /// A table of member m, by its number there. It takes no memory. Of a run that answered `Memory` nothing is said.
    pub fn table(&self, m: u32, t: u32) -> &Slots
        requires { t < ((set_view self.now.linked).counts m).tables }
        ensures { self.now.run.lost ≡ false → (set_view self.now.linked).table (units_at self.now.linked self.now.run) m t ≡ Some result.now }
    {
        if self.is_lost() {
            return self.shared_table();
        }
        self.bare().running.world.table(m, t)
    }

    /// Whether an element segment of member m, by its number there, is empty, as it is once it is dropped. It takes no memory. Of a run that
    /// answered `Memory` nothing is said.
    pub fn elem_dropped(&self, m: u32, e: u32) -> bool
        requires { e < ((set_view self.now.linked).counts m).elems }
        ensures { self.now.run.lost ≡ false → IsDroppedTold result ((set_view self.now.linked).elem (units_at self.now.linked self.now.run) m e) }
    {
        if self.is_lost() {
            return true;
        }
        self.bare().running.world.elem_dropped(m, e)
    }

    /// Whether a data segment of member m, by its number there, is empty, as it is once it is dropped. It takes no memory. Of a run that
    /// answered `Memory` nothing is said.
    pub fn data_dropped(&self, m: u32, d: u32) -> bool
        requires { d < ((set_view self.now.linked).counts m).datas }
        ensures { self.now.run.lost ≡ false → IsDroppedTold result ((set_view self.now.linked).bytes (units_at self.now.linked self.now.run) m d) }
    {
        if self.is_lost() {
            return true;
        }
        self.bare().running.world.data_dropped(m, d)
    }

    /// The globals of all members, by their addresses in the store. It takes no memory. Of a run that answered `Memory` nothing is said.
    pub fn globals(&self) -> &[Value]
        ensures { self.now.run.lost ≡ false → result.now ≡ (units_at self.now.linked self.now.run).globals }
    {
        let world = &self.bare().running.world;
        &world.globals
    }

    /// The tables of all members, by their addresses in the store. It takes no memory. Of a run that answered `Memory` nothing is said.
    pub fn tables(&self) -> &[Slots]
        ensures { self.now.run.lost ≡ false → result.now ≡ (units_at self.now.linked self.now.run).tables }
    {
        let world = &self.bare().running.world;
        &world.tables
    }

    /// What is left of the element segments of all members, by their addresses in the store. It takes no memory. Of a run that answered
    /// `Memory` nothing is said.
    pub fn elems(&self) -> &[Vec<Option<Ref>>]
        ensures { self.now.run.lost ≡ false → map (λ v. v.items) result.now ≡ (units_at self.now.linked self.now.run).elems }
    {
        let world = &self.bare().running.world;
        &world.elems
    }

    /// What is left of the data segments of all members, by their addresses in the store. It takes no memory. Of a run that answered `Memory`
    /// nothing is said.
    pub fn datas(&self) -> &[&'m [u8]]
        ensures { self.now.run.lost ≡ false → map (λ d. d.now) result.now ≡ (units_at self.now.linked self.now.run).datas }
    {
        let world = &self.bare().running.world;
        &world.datas
    }

    /// How many steps were made. The run stands where these lead.
    pub fn steps(&self) -> u64
        ensures value { result ≡ self.now.run.steps }
        ensures stands { self.now.run.lost ≡ false → IsAt (set_course self.now.linked) self.now.run }
    {
        self.run.stands();
        self.run.steps()
    }

    /// The answers that are recorded, in order.
    pub fn answers(&self) -> &[Answer]
        ensures { result.now ≡ self.now.run.answers }
    {
        self.run.answers()
    }

    /// The answers themselves.
    pub fn into_answers(self) -> List<Answer>
        ensures { result ≡ self.entry.run.answers }
    {
        self.run.into_answers()
    }

    /// The memory as the run stands.
    pub fn memory(&self) -> &Space
        ensures { self.now.run.lost ≡ false → result.now ≡ memory_at (set_course self.now.linked) self.now.run }
    {
        self.run.memory()
    }

    /// The host functions that the set imports, by their entries.
    pub fn hosts(&self) -> &[HostName]
        ensures { map host_name_of result.now ≡ hosts_of self.now.linked }
    {
        self.run.hosts()
    }
}
