// Making the trace of a run: it is made again over its answers, and each host call is noted.
ghost use Rattle.std.specs.Prelude.{◌≡◌, ◌≢◌, ◌<◌, ◌≤◌, ◌^◌, length, slice_get, Some, IfOk, OnOk};
ghost use Rattle.spec_traces.specs.spec_hosts.spec_runtime.Courses.{no_steps};
ghost use Rattle.spec_traces.specs.Texts.{run_end, IsCallInRange, IsEndInRange, IsInRange};
ghost use Rattle.spec_traces.specs.Traces.{IsTraceOf};
ghost use Rattle.run_loaded.specs.Courses.{Origin, course_of};
ghost use Rattle.run_loaded.specs.Programs.{recorded_of, IsOf};
ghost use Rattle.replay_check.specs.Checks.{HoldNumbers, HasRun, WasRun, IsTraced};
ghost use Rattle.replay_check.specs.Recording.{call_noted, Records, Notes};

use crate::copies::copied_answer;
use crate::program::Program;
use crate::ranges::call_in_range;
use dyl_link::host_table::HostName;
use run_loaded::{Loaded, asked_by, host_at};
use spec_traces::spec_hosts::wasm_form::{Answer, Asked, List, Memory, Text};
use spec_traces::spec_hosts::{Ran, RunEnd};
use spec_traces::{Trace, TraceCall, TraceEnd};
use std::alloc::Global;

/// The end of a single run, as a trace tells it.
fn end_of(end: RunEnd) -> TraceEnd
    requires { end ≢ RunEnd.TurnLimit }
    ensures same { run_end result ≡ end }
    ensures range { IsEndInRange result }
{
    match end {
        RunEnd::Return => TraceEnd::Return,
        RunEnd::Exit(code) => TraceEnd::Exit(code),
        RunEnd::Trap(trap) => TraceEnd::Trap(trap),
        RunEnd::StepLimit => TraceEnd::StepLimit,
        RunEnd::DepthLimit => TraceEnd::DepthLimit,
        RunEnd::HostCallLimit => TraceEnd::HostCallLimit,
        RunEnd::TurnLimit => unreachable!(),
    }
}

/// The answer to a call by its number.
fn answer_at(answers: &[Answer], call: usize) -> &Answer
    requires { call < length answers.now }
    ensures { slice_get answers.now call ≡ Some result.now }
{
    &answers[call]
}

/// The host call that is waited for after so many steps, with its answer.
fn noted_call(
    alloc: Global,
    steps: u64,
    host: &HostName,
    args: List<u64>,
    answer: &Answer,
) -> Result<TraceCall, Memory>
    ensures call { IfOk result (λ c. c ≡ call_noted steps host.now args answer.now) }
    ensures range { IfOk result (λ c. steps < 2 ^ 63 → IsCallInRange c) }
{
    let module = Text::copied(alloc, host.module.as_str())?;
    let name = Text::copied(alloc, host.name.as_str())?;
    let answer = copied_answer(alloc, answer)?;
    let call = TraceCall {
        steps,
        module,
        name,
        args,
        answer,
    };
    call_in_range(&call);
    Ok(call)
}

/// A run that is made again over the answers of another, and the host calls that it has noted.
pub(crate) struct Recorder<'m> {
    loaded: Loaded<'m>,
    calls: Vec<TraceCall>,
}

impl<'m> Recorder<'m> {
    /// Makes all the steps of the run.
    fn make_steps(&mut self, alloc: Global, ran: &Ran) -> Result<(), Memory>
        requires { (o : Origin) × Records o ran.now self.old }
        ensures along { OnOk result ((o : Origin) → Records o ran.now self.old → Records o ran.now self.new) }
        ensures all { OnOk result ((recorded_of self.new.loaded).steps ≡ ran.now.steps) }
    {
        'steps: while self.loaded.steps() < ran.steps {
            self.proceed(alloc, ran)?;
        }
        Ok(())
    }

    /// Makes steps of code, and then one step more if it isn't the end of the run.
    fn proceed(&mut self, alloc: Global, ran: &Ran) -> Result<(), Memory>
        requires few { (recorded_of self.old.loaded).steps < ran.now.steps }
        requires along { (o : Origin) × Records o ran.now self.old }
        ensures along { OnOk result ((o : Origin) → Records o ran.now self.old → Records o ran.now self.new) }
        ensures more { OnOk result ((recorded_of self.old.loaded).steps < (recorded_of self.new.loaded).steps) }
    {
        self.advance(alloc, ran)?;
        if self.loaded.steps() < ran.steps {
            self.step(alloc, ran)
        } else {
            Ok(())
        }
    }

    /// Makes steps of code, up to those of the run.
    fn advance(&mut self, alloc: Global, ran: &Ran) -> Result<(), Memory>
        requires { (recorded_of self.old.loaded).steps < ran.now.steps }
        ensures along { OnOk result ((o : Origin) → Records o ran.now self.old → Records o ran.now self.new) }
        ensures more { (recorded_of self.old.loaded).steps ≤ (recorded_of self.new.loaded).steps }
    {
        self.loaded.advance(alloc, ran.steps)?;
        let _steps = self.loaded.steps();
        Ok(())
    }

    /// Makes a step. Where a host call is then waited for, it is noted and answered.
    fn step(&mut self, alloc: Global, ran: &Ran) -> Result<(), Memory>
        requires few { (recorded_of self.old.loaded).steps < ran.now.steps }
        requires room { (recorded_of self.old.loaded).steps < 18446744073709551615 }
        requires along { (o : Origin) × Records o ran.now self.old }
        ensures along { OnOk result ((o : Origin) → Records o ran.now self.old → Records o ran.now self.new) }
        ensures more { OnOk result ((recorded_of self.old.loaded).steps < (recorded_of self.new.loaded).steps) }
    {
        let event = self.loaded.run_step(alloc)?;
        match asked_by(event) {
            Some(asked) => self.note(alloc, ran, asked),
            None => Ok(()),
        }
    }

    /// Notes the host call that is waited for, and records the answer that the run had; neither if it is the end of the run.
    fn note(&mut self, alloc: Global, ran: &Ran, asked: Asked) -> Result<(), Memory>
        requires { (o : Origin) × Notes o ran.now asked self.old }
        ensures along { OnOk result ((o : Origin) → Notes o ran.now asked self.old → Records o ran.now self.new) }
        ensures same { OnOk result ((recorded_of self.new.loaded).steps ≡ (recorded_of self.old.loaded).steps) }
    {
        let steps = self.loaded.steps();
        if steps < ran.steps {
            let Asked { entry, args } = asked;
            let host = host_at(self.loaded.hosts(), entry);
            let given = answer_at(ran.answers.items(), self.calls.len());
            let call = noted_call(alloc, steps, host, args, given)?;
            let answer = copied_answer(alloc, given)?;
            self.calls.push(call)?;
            self.loaded.answer(alloc, answer)
        } else {
            Ok(())
        }
    }

    /// The host calls that were noted.
    fn into_calls(self) -> List<TraceCall>
        ensures { result ≡ self.entry.calls.items }
    {
        let Recorder { loaded, calls } = self;
        drop(loaded.into_answers());
        List::of(calls)
    }
}

/// The trace of a run of what was loaded.
fn traced(alloc: Global, loaded: Loaded, ran: &Ran) -> Result<Trace, Memory>
    requires fresh { recorded_of loaded ≡ no_steps }
    requires run { (o : Origin) × IsOf loaded o × HasRun (course_of o) ran.now }
    ensures traces { IfOk result (λ t. (o : Origin) → IsOf loaded.entry o → HasRun (course_of o) ran.now → IsTraceOf (course_of o) ran.now t) }
    ensures range { IfOk result (λ t. ran.now.steps < 2 ^ 63 → IsInRange t) }
{
    let mut recorder = Recorder {
        loaded,
        calls: Vec::new(alloc),
    };
    let made = recorder.make_steps(alloc, ran);
    let calls = recorder.into_calls();
    match made {
        Ok(()) => Ok(Trace {
            calls,
            steps: ran.steps,
            end: end_of(ran.end),
        }),
        Err(memory) => {
            drop(calls);
            Err(memory)
        }
    }
}

/// The trace of a run of a program, which is told by its steps, its answers and its end: the program is run again over these answers. The
/// numbers of the trace are in their ranges where those of the run are. `Memory` where no memory could be had.
pub fn trace_of(alloc: Global, p: &Program, ran: &Ran) -> Result<Trace, Memory>
    requires numbers { HoldNumbers p.now }
    requires run { WasRun p.now ran.now }
    ensures traces { IfOk result (λ t. IsTraced p.now ran.now t) }
    ensures range { IfOk result (λ t. ran.now.steps < 2 ^ 63 → IsInRange t) }
{
    match p.load(alloc) {
        Ok(loaded) => traced(alloc, loaded, ran),
        Err(fault) => {
            drop(fault);
            Err(Memory)
        }
    }
}
