// A run that is driven by its host.
ghost use Rattle.std.specs.Prelude.{◌≡◌, ◌<◌, ◌≤◌, ◌+◌, ◌&&◌, map, sum, None, false, is_some, nat_lt, OnOk, IfOk};
ghost use Rattle.spec_hosts.specs.spec_runtime.Names.{HostNames};
ghost use Rattle.spec_hosts.specs.Devices.{Devices, devices};
ghost use Rattle.spec_hosts.specs.Ends.{bytes_written, are_many};
ghost use Rattle.host_calls.specs.Embedders.{names_of, embedder};
ghost use Rattle.run_loaded.specs.Courses.{Origin};
ghost use Rattle.run_loaded.specs.Programs.{recorded_of, Keeps};
ghost use Rattle.wasm_exec.specs.Driving.{IsBoundTo, Runs, MayStep, Drives, GoesAlong, Steps, EndsSo, GoesOn, IsServed, progress_of, ran_of};

use host_calls::Hosts;
use run_limits::{are_many, bytes_written, may_step};
use run_loaded::{Loaded, asked_by, end_by, host_at};
use spec_hosts::dyl_outside::{Ambient, Sink, Source};
use spec_hosts::wasm_form::{List, Memory};
use spec_hosts::{Ran, RunEnd};
use std::alloc::Global;
use wasm_machine::{Answer, Asked};

/// A run with the host call that it waits for, and how many bytes the answers so far have written.
pub(crate) struct Driver<'m> {
    pub program: Loaded<'m>,
    pub asked: Option<Asked>,
    pub written: u128,
}

impl<'m> Driver<'m> {
    /// A program that has made no step.
    pub fn new(program: Loaded<'m>) -> Driver<'m>
        ensures progress { progress_of result ≡ (record { run = recorded_of program.entry; asked = None; written = 0 }) }
        ensures program { result.program ≡ program.entry }
    {
        Driver {
            program,
            asked: None,
            written: 0,
        }
    }

    /// Makes steps of code, answers the host call that the run then waits for, and makes one step more. The end, if it has come.
    pub fn proceed<I: Source, O: Sink, E: Sink, A: Ambient>(
        &mut self,
        alloc: Global,
        most: u64,
        hosts: &Hosts,
        input: &mut I,
        output: &mut O,
        errors: &mut E,
        ambient: &mut A,
    ) -> Result<Option<RunEnd>, Memory>
        requires few { (recorded_of self.old.program).steps < most }
        requires driven { (o : Origin) × (begun : Devices) × IsBoundTo hosts.now o × Drives (embedder hosts.now) o self.old begun (devices (I.seen input.old) (O.seen output.old) (E.seen errors.old) (A.seen ambient.old)) }
        ensures proceeds { GoesOn (embedder hosts.now) most result self.old self.new (devices (I.seen input.old) (O.seen output.old) (E.seen errors.old) (A.seen ambient.old)) (devices (I.seen input.new) (O.seen output.new) (E.seen errors.new) (A.seen ambient.new)) }
        ensures more { IfOk result (λ o. o ≡ None → (recorded_of self.old.program).steps < (recorded_of self.new.program).steps) }
        ensures few { OnOk result ((recorded_of self.new.program).steps ≤ most) }
    {
        if !self.advance(alloc, most)? {
            return Ok(None);
        }
        if self.is_full() {
            return Ok(Some(RunEnd::HostCallLimit));
        }
        self.answer(alloc, hosts, input, output, errors, ambient)?;
        self.step(alloc)
    }

    /// Makes steps of code. Whether a further step may be made.
    fn advance(&mut self, alloc: Global, most: u64) -> Result<bool, Memory>
        requires { (recorded_of self.old.program).steps ≤ most }
        ensures along { OnOk result (GoesAlong self.old self.new) }
        ensures left { IfOk result (λ left. left ≡ nat_lt (recorded_of self.new.program).steps most) }
        ensures kept { Keeps self.old.program self.new.program }
        ensures more { (recorded_of self.old.program).steps ≤ (recorded_of self.new.program).steps }
        ensures few { (recorded_of self.new.program).steps ≤ most }
    {
        self.program.advance(alloc, most)?;
        Ok(may_step(self.program.steps(), most))
    }

    /// Whether a host call is waited for and none is answered any more.
    fn is_full(&self) -> bool
        requires written { self.now.written ≡ sum (map bytes_written (recorded_of self.now.program).answers) }
        ensures { result ≡ (is_some self.now.asked && are_many (recorded_of self.now.program).answers) }
    {
        self.asked.is_some() && are_many(self.program.answers(), self.written)
    }

    /// Answers the host call that the run waits for, if it waits.
    fn answer<I: Source, O: Sink, E: Sink, A: Ambient>(
        &mut self,
        alloc: Global,
        hosts: &Hosts,
        input: &mut I,
        output: &mut O,
        errors: &mut E,
        ambient: &mut A,
    ) -> Result<(), Memory>
        requires running { (o : Origin) × IsBoundTo hosts.now o × Runs o (names_of hosts.now.table.now) self.old }
        requires room { (is_some self.old.asked && are_many (recorded_of self.old.program).answers) ≡ false }
        ensures served { IsServed (embedder hosts.now) result self.old self.new (devices (I.seen input.old) (O.seen output.old) (E.seen errors.old) (A.seen ambient.old)) (devices (I.seen input.new) (O.seen output.new) (E.seen errors.new) (A.seen ambient.new)) }
        ensures kept { Keeps self.old.program self.new.program }
        ensures steps { (recorded_of self.new.program).steps ≡ (recorded_of self.old.program).steps }
    {
        let Some(asked) = &self.asked else {
            return Ok(());
        };
        let host = host_at(self.program.hosts(), asked.entry);
        let answer = hosts.ask(
            alloc,
            host,
            asked,
            self.program.memory(),
            input,
            output,
            errors,
            ambient,
        )?;
        self.written += bytes_written(&answer);
        self.program.answer(alloc, answer)
    }

    /// Makes a step. The end, if it has come.
    fn step(&mut self, alloc: Global) -> Result<Option<RunEnd>, Memory>
        requires ready { (names : HostNames) × (o : Origin) × MayStep o names self.old }
        requires few { (recorded_of self.old.program).steps < 18446744073709551615 }
        ensures stepped { IfOk result (λ end. Steps end self.old self.new) }
        ensures kept { Keeps self.old.program self.new.program }
        ensures more { IfOk result (λ o. o ≡ None → (recorded_of self.old.program).steps < (recorded_of self.new.program).steps) }
        ensures few { (recorded_of self.new.program).steps ≤ (recorded_of self.old.program).steps + 1 }
    {
        let event = self.program.run_step(alloc)?;
        let end = end_by(&event);
        self.asked = asked_by(event);
        Ok(end)
    }

    /// The end of a run that has made all its steps.
    pub fn last(&mut self, alloc: Global) -> Result<RunEnd, Memory>
        requires running { (names : HostNames) × (o : Origin) × Runs o names self.old }
        requires few { (recorded_of self.old.program).steps < 18446744073709551615 }
        ensures ended { IfOk result (λ end. EndsSo end self.old) }
        ensures same { OnOk result (recorded_of self.new.program ≡ recorded_of self.old.program) }
    {
        if !self.program.has_ended() {
            return Ok(RunEnd::StepLimit);
        }
        let event = self.program.run_step(alloc)?;
        match end_by(&event) {
            Some(end) => Ok(end),
            None => unreachable!(),
        }
    }

    /// What came of the run.
    pub fn finish(self, end: RunEnd) -> Ran
        ensures { result ≡ ran_of end (recorded_of self.entry.program) }
    {
        let steps = self.program.steps();
        Ran {
            end,
            steps,
            answers: self.into_answers(),
        }
    }

    /// The answers themselves.
    pub fn into_answers(self) -> List<Answer>
        ensures { result ≡ (recorded_of self.entry.program).answers }
    {
        let Driver {
            program,
            asked: _asked,
            written: _written,
        } = self;
        program.into_answers()
    }
}
