// What is recorded of a run.
ghost use Rattle.std.specs.Prelude.{◌≡◌, ◌<◌, ◌⊎◌, map, true, false, IfOk, OnOk, OnErr, Err};
ghost use Rattle.spec_safety.specs.spec_runtime.Recorded.{has_ended};
ghost use Rattle.spec_safety.specs.spec_runtime.Courses.{state_at, status_at, memory_at, IsAt, is_waiting, with_answer, as_lost};
ghost use Rattle.host_table.specs.Names.{host_name_of};
ghost use Rattle.wasm_machine.specs.Steps.{RunStepped, ArgumentsFit, Advances, AreOfCode, Awaits};
ghost use Rattle.wasm_recorder.specs.Runs.{Counted, IsCodeNext, HadCode, MayWantAt};
ghost use Rattle.wasm_recorder.specs.Kept.{new_run, StandsFrom};

use crate::bare::Bare;
use host_table::HostName;
use std::alloc::Global;
use std::marker::{Model, PhantomData};
use wasm_form::{List, Memory};
use wasm_machine::{Answer, Done, Event, Standing, event_of, is_of_bytes, steps_told};
use wasm_space::Space;

/// The run of one `K`: its steps, and the answers of its host. Contracts see it as a `RunOf`.
#[derive(Drop)]
pub struct Recorder<K, R: Bare<K>> {
    pub(crate) bare: R,
    pub(crate) of: PhantomData<K>,
    pub(crate) steps: u64,
    pub(crate) answers: Vec<Answer>,
    pub(crate) answered: bool,
    pub(crate) lost: bool,
}

impl<K, R: Bare<K>> Model for Recorder<K, R> {
    ghost use Rattle.wasm_recorder.specs.Kept.{RunOf, run_of, recorded, IsKept};

    ghost Value = { RunOf K };

    ghost view = { λ i. run_of R.runs i.bare (recorded i.steps i.answers.items i.answered i.lost) };

    ghost invariant = { λ i. IsKept R.runs i.bare (recorded i.steps i.answers.items i.answered i.lost) };
}

/// Makes steps of code, up to so many in all, and counts them.
fn run_code<K, R: Bare<K>>(bare: &mut R, alloc: Global, most: u64, steps: &mut u64, lost: &mut bool)
    requires whole { R.runs.IsWhole bare.old }
    requires sound { R.runs.IsSound bare.old }
    requires moving { R.runs.standing bare.old ≡ Standing.Moving }
    requires few { steps.old < most }
    requires found { lost.old ≡ false }
    ensures counted { Counted R.runs most bare.old bare.new steps.old steps.new lost.new }
    ensures sound { lost.new ≡ false → R.runs.IsSound bare.new }
    ensures whole { R.runs.IsWhole bare.new }
    ensures key { R.runs.key bare.new ≡ R.runs.key bare.old }
{
    let (made, done) = bare.run(alloc, most - *steps);
    *steps += made;
    match done {
        Done::Returned | Done::Trapped(_) => *steps += 1,
        Done::NoMemory => *lost = true,
        Done::Goes | Done::Exited | Done::Marked | Done::Deep | Done::Outside => {}
    }
}

impl<K, R: Bare<K>> Recorder<K, R> {
    /// A run that has made no step.
    pub fn new(alloc: Global, bare: R) -> Recorder<K, R>
        requires whole { R.runs.IsWhole bare }
        requires sound { R.runs.IsSound bare }
        requires origin { (o : R.runs.Origin) × R.runs.IsOf (R.runs.key bare) o }
        requires opens { (o : R.runs.Origin) → R.runs.IsOf (R.runs.key bare) o → R.runs.IsState bare (R.runs.key bare) o (R.runs.course (R.runs.key bare) o).opening }
        ensures { result ≡ new_run (R.runs.key bare) }
    {
        Recorder {
            bare,
            of: PhantomData,
            steps: 0,
            answers: Vec::new(alloc),
            answered: false,
            lost: false,
        }
    }

    /// Where it stands: what is run has an origin, and from each of them the steps lead there. The call does nothing: a proof gets these
    /// facts by it.
    pub fn stands(&self)
        ensures origin { (o : R.runs.Origin) × R.runs.IsOf self.now.of o }
        ensures at { self.now.run.lost ≡ false → (o : R.runs.Origin) → R.runs.IsOf self.now.of o → IsAt (R.runs.course self.now.of o) self.now.run }
    {
        let _ = &self.steps;
    }

    /// The run without what is recorded of it.
    pub fn bare(&self) -> &R
        ensures key { R.runs.key result.now ≡ self.now.of }
        ensures whole { R.runs.IsWhole result.now }
        ensures sound { self.now.run.lost ≡ false → R.runs.IsSound result.now }
        ensures stands { self.now.run.lost ≡ false → (o : R.runs.Origin) → R.runs.IsOf self.now.of o → StandsFrom R.runs self.now.of o self.now.run result.now }
    {
        &self.bare
    }

    /// Whether memory was wanting.
    pub fn is_lost(&self) -> bool
        ensures { result ≡ self.now.run.lost }
    {
        self.lost
    }

    /// Makes one step, which takes the answer that is recorded for a wait, and tells how the run stands then. An end is told again,
    /// `Deep` where the step would pass a limit of depth, with nothing changed. It takes memory only as a step of what is run does; a run
    /// that answered `Memory` answers it from then on.
    pub fn run_step(&mut self, alloc: Global) -> Result<Event, Memory>
        requires answered { (o : R.runs.Origin) × R.runs.IsOf self.old.of o × (self.old.run.lost ≡ false → is_waiting (R.runs.course self.old.of o) self.old.run ≡ false) }
        requires few { self.old.run.steps < 18446744073709551615 }
        ensures stepped { (o : R.runs.Origin) → R.runs.IsOf self.old.of o → IfOk result (λ e. IsAt (R.runs.course self.old.of o) self.old.run × RunStepped (R.runs.course self.old.of o) e self.old.run self.new.run) }
        ensures wanting { (o : R.runs.Origin) → R.runs.IsOf self.old.of o → OnErr result ((self.old.run.lost ≡ true) ⊎ MayWantAt R.runs self.old.of o self.old.run) }
        ensures lost { OnErr result (self.new.run ≡ as_lost self.old.run) }
        ensures again { self.old.run.lost ≡ true → result ≡ Err (record {}) }
        ensures arguments { (o : R.runs.Origin) → R.runs.IsOf self.old.of o → IfOk result (λ e. ArgumentsFit (R.runs.course self.old.of o).host e) }
        ensures same { self.new.of ≡ self.old.of }
    {
        if self.lost {
            return Err(Memory);
        }
        match self.bare.standing() {
            Standing::Moving => {
                let Ok(event) = self.bare.step(alloc) else {
                    self.lost = true;
                    return Err(Memory);
                };
                self.steps += steps_told(&event);
                Ok(event)
            }
            Standing::Asking(..) => {
                let Some(answer) = self.answers.last() else {
                    unreachable!();
                };
                self.bare.take(answer);
                self.answered = false;
                self.steps += 1;
                Ok(event_of(self.bare.standing()))
            }
            end => Ok(event_of(end)),
        }
    }

    /// Makes steps of code, up to so many in all, until one is left for `run_step`, or the run has ended or waits. It takes memory only
    /// as a step does.
    pub fn advance(&mut self, alloc: Global, most: u64) -> Result<(), Memory>
        ensures advances { Advances most self.old.run self.new.run }
        ensures code { (o : R.runs.Origin) → R.runs.IsOf self.old.of o → AreOfCode (R.runs.course self.old.of o) self.old.run self.new.run }
        ensures tops { (o : R.runs.Origin) → R.runs.IsOf self.old.of o → HadCode R.runs self.old.of o self.old.run self.new.run }
        ensures left { (o : R.runs.Origin) → R.runs.IsOf self.old.of o → OnOk result (self.new.run.steps < most → IsCodeNext R.runs self.old.of o (state_at (R.runs.course self.old.of o) self.new.run) → ⊥) }
        ensures found { OnOk result (self.new.run.lost ≡ false) }
        ensures wanting { (o : R.runs.Origin) → R.runs.IsOf self.old.of o → OnErr result ((self.old.run.lost ≡ true) ⊎ MayWantAt R.runs self.old.of o self.new.run) }
        ensures lost { OnErr result (self.new.run.lost ≡ true) }
        ensures again { self.old.run.lost ≡ true → result ≡ Err (record {}) }
        ensures stays { self.old.run.lost ≡ true → self.new.run ≡ self.old.run }
        ensures same { self.new.of ≡ self.old.of }
    {
        if self.lost {
            return Err(Memory);
        }
        if !matches!(self.bare.standing(), Standing::Moving) {
            return Ok(());
        }
        if self.steps >= most {
            return Ok(());
        }
        run_code(&mut self.bare, alloc, most, &mut self.steps, &mut self.lost);
        if self.lost { Err(Memory) } else { Ok(()) }
    }

    /// Records the answer that the next step takes.
    pub fn answer(&mut self, alloc: Global, a: Answer) -> Result<(), Memory>
        requires { (o : R.runs.Origin) × R.runs.IsOf self.old.of o × Awaits (R.runs.course self.old.of o) self.old.run a }
        ensures recorded { OnOk result (self.new.run ≡ with_answer self.old.run a) }
        ensures lost { OnErr result (self.new.run ≡ as_lost self.old.run) }
        ensures same { self.new.of ≡ self.old.of }
    {
        let _ = self.bare.standing();
        let _ = self.bare.memory();
        is_of_bytes(&a);
        let Ok(()) = self.answers.push(a) else {
            self.lost = true;
            return Err(Memory);
        };
        self.answered = true;
        Ok(())
    }

    /// Whether it waits for an answer that isn't recorded.
    pub fn waiting(&self) -> bool
        ensures { self.now.run.lost ≡ false → (o : R.runs.Origin) → R.runs.IsOf self.now.of o → result ≡ is_waiting (R.runs.course self.now.of o) self.now.run }
    {
        !self.answered && matches!(self.bare.standing(), Standing::Asking(..))
    }

    /// Whether it has returned, exited or trapped.
    pub fn has_ended(&self) -> bool
        ensures { self.now.run.lost ≡ false → (o : R.runs.Origin) → R.runs.IsOf self.now.of o → result ≡ has_ended (status_at (R.runs.course self.now.of o) self.now.run) }
    {
        matches!(
            self.bare.standing(),
            Standing::Returned | Standing::Trapped(_) | Standing::Exited(_)
        )
    }

    /// How many steps were made.
    pub fn steps(&self) -> u64
        ensures { result ≡ self.now.run.steps }
    {
        self.steps
    }

    /// The answers that are recorded, in order.
    pub fn answers(&self) -> &[Answer]
        ensures { result.now ≡ self.now.run.answers }
    {
        &self.answers
    }

    /// The answers themselves.
    pub fn into_answers(self) -> List<Answer>
        ensures { result ≡ self.run.answers }
    {
        drop(self.bare);
        List::of(self.answers)
    }

    /// The memory as the run stands.
    pub fn memory(&self) -> &Space
        ensures { self.now.run.lost ≡ false → (o : R.runs.Origin) → R.runs.IsOf self.now.of o → result.now ≡ memory_at (R.runs.course self.now.of o) self.now.run }
    {
        self.bare.memory()
    }

    /// The host functions, by their entries.
    pub fn hosts(&self) -> &[HostName]
        ensures { map host_name_of result.now ≡ R.runs.hosts self.now.of }
    {
        self.bare.hosts()
    }
}
