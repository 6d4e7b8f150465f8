// A loaded program.
ghost use Rattle.std.specs.Prelude.{◌≡◌, ◌<◌, ◌≤◌, false, map, slice_get, IfOk, OnOk, OnErr};
ghost use Rattle.spec_hosts.specs.spec_runtime.Recorded as recorded;
ghost use Rattle.dyl_link.specs.host_table.Names.{host_name_of};
ghost use Rattle.spec_hosts.specs.spec_runtime.Courses.{status_at, memory_at, IsAt, is_waiting, with_answer, as_lost};
ghost use Rattle.wasm_machine.specs.Steps.{RunStepped, ArgumentsFit, Advances, AreOfCode, Awaits};
ghost use Rattle.run_loaded.specs.Courses.{Origin, course_of};
ghost use Rattle.run_loaded.specs.Programs.{recorded_of, IsOf, Keeps};

use dyl_link::host_table::HostName;
use dyl_store::Store;
use spec_hosts::wasm_form::{List, Memory};
use std::alloc::Global;
use wasm_machine::{Answer, Event};
use wasm_single::Single;
use wasm_space::Space;

/// A program that is run: one module, or a linked set, loaded.
pub enum Loaded<'m> {
    Module(Single<'m>),
    Set(Store<'m>),
}

impl<'m> Loaded<'m> {
    /// Makes one step, which takes the answer that is recorded for a wait, and tells how the run stands then. An end is told again,
    /// `Deep` where the step would pass a limit of depth, with nothing changed.
    pub fn run_step(&mut self, alloc: Global) -> Result<Event, Memory>
        requires answered { (o : Origin) × IsOf self.old o × ((recorded_of self.old).lost ≡ false → is_waiting (course_of o) (recorded_of self.old) ≡ false) }
        requires few { (recorded_of self.old).steps < 18446744073709551615 }
        ensures stepped { IfOk result (λ e. (o : Origin) → IsOf self.old o → IsAt (course_of o) (recorded_of self.old) × RunStepped (course_of o) e (recorded_of self.old) (recorded_of self.new)) }
        ensures arguments { IfOk result (λ e. (o : Origin) → IsOf self.old o → ArgumentsFit (course_of o).host e) }
        ensures lost { OnErr result (recorded_of self.new ≡ as_lost (recorded_of self.old)) }
        ensures kept { Keeps self.old self.new }
    {
        match self {
            Loaded::Module(single) => single.run_step(alloc),
            Loaded::Set(store) => store.run_step(alloc),
        }
    }

    /// Makes steps of code, up to so many in all, until one is left for `run_step`.
    pub fn advance(&mut self, alloc: Global, most: u64) -> Result<(), Memory>
        ensures advances { Advances most (recorded_of self.old) (recorded_of self.new) }
        ensures code { (o : Origin) → IsOf self.old o → AreOfCode (course_of o) (recorded_of self.old) (recorded_of self.new) }
        ensures more { (recorded_of self.old).steps ≤ (recorded_of self.new).steps }
        ensures few { (recorded_of self.old).steps ≤ most → (recorded_of self.new).steps ≤ most }
        ensures found { OnOk result ((recorded_of self.new).lost ≡ false) }
        ensures kept { Keeps self.old self.new }
    {
        match self {
            Loaded::Module(single) => single.advance(alloc, most),
            Loaded::Set(store) => store.advance(alloc, most),
        }
    }

    /// Records the answer that the next step takes.
    pub fn answer(&mut self, alloc: Global, a: Answer) -> Result<(), Memory>
        requires { (o : Origin) × IsOf self.old o × Awaits (course_of o) (recorded_of self.old) a }
        ensures recorded { OnOk result (recorded_of self.new ≡ with_answer (recorded_of self.old) a) }
        ensures lost { OnErr result (recorded_of self.new ≡ as_lost (recorded_of self.old)) }
        ensures kept { Keeps self.old self.new }
    {
        match self {
            Loaded::Module(single) => single.answer(alloc, a),
            Loaded::Set(store) => store.answer(alloc, a),
        }
    }

    /// Whether it has returned, exited or trapped.
    pub fn has_ended(&self) -> bool
        ensures { (recorded_of self.now).lost ≡ false → (o : Origin) → IsOf self.now o → result ≡ recorded.has_ended (status_at (course_of o) (recorded_of self.now)) }
    {
        match self {
            Loaded::Module(single) => single.has_ended(),
            Loaded::Set(store) => store.has_ended(),
        }
    }

    /// How many steps were made. The run stands where these lead.
    pub fn steps(&self) -> u64
        ensures value { result ≡ (recorded_of self.now).steps }
        ensures stands { (recorded_of self.now).lost ≡ false → (o : Origin) → IsOf self.now o → IsAt (course_of o) (recorded_of self.now) }
    {
        match self {
            Loaded::Module(single) => single.steps(),
            Loaded::Set(store) => store.steps(),
        }
    }

    /// The answers that are recorded, in order.
    pub fn answers(&self) -> &[Answer]
        ensures { result.now ≡ (recorded_of self.now).answers }
    {
        match self {
            Loaded::Module(single) => single.answers(),
            Loaded::Set(store) => store.answers(),
        }
    }

    /// The answers themselves.
    pub fn into_answers(self) -> List<Answer>
        ensures { result ≡ (recorded_of self.entry).answers }
    {
        match self {
            Loaded::Module(single) => single.into_answers(),
            Loaded::Set(store) => store.into_answers(),
        }
    }

    /// The memory as the run stands.
    pub fn memory(&self) -> &Space
        ensures { (recorded_of self.now).lost ≡ false → (o : Origin) → IsOf self.now o → result.now ≡ memory_at (course_of o) (recorded_of self.now) }
    {
        match self {
            Loaded::Module(single) => single.memory(),
            Loaded::Set(store) => store.memory(),
        }
    }

    /// The host functions, by their entries.
    pub fn hosts(&self) -> &[HostName]
        ensures { (o : Origin) → IsOf self.now o → (course_of o).host ≡ slice_get (map host_name_of result.now) }
    {
        match self {
            Loaded::Module(single) => single.hosts(),
            Loaded::Set(store) => store.hosts(),
        }
    }
}
