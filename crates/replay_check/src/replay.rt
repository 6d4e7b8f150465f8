// A run that follows a trace.
ghost use Rattle.std.specs.Prelude.{◌≡◌, ◌<◌, ◌≤◌, ℕ, suc, length, slice_get, Some, None, true, false, IfOk, OnOk, Decides, MatchBool};
ghost use Rattle.spec_traces.specs.spec_hosts.spec_runtime.Courses.{state_at, status_at, no_steps};
ghost use Rattle.spec_traces.specs.declared.trace.Trace.{Trace};
ghost use Rattle.spec_traces.specs.Traces.{Agrees, Traces};
ghost use Rattle.run_loaded.specs.Courses.{Origin, course_of};
ghost use Rattle.run_loaded.specs.Programs.{recorded_of, IsOf};
ghost use Rattle.replay_check.specs.Following.{run_of, own_end, is_full, Follows, IsFollowing, GoesAlong, Stops, Asks, AtCall, HasMet, HasAgreed, StandsAt, Compares};

use crate::answers::{fits, is_call};
use crate::copies::copied_answer;
use crate::ends::{is_deep, is_told};
use run_limits::{are_many, bytes_written};
use run_loaded::{Loaded, asked_by, end_by, host_at};
use spec_traces::spec_hosts::RunEnd;
use spec_traces::spec_hosts::wasm_form::Memory;
use spec_traces::{Trace, TraceCall, TraceEnd};
use std::alloc::Global;
use wasm_machine::Asked;

/// A run with the host call that it waits for, and how many bytes the answers so far have written.
pub(crate) struct Replay<'m> {
    pub program: Loaded<'m>,
    pub asked: Option<Asked>,
    pub written: u128,
}

impl<'m> Replay<'m> {
    /// A program that has made no step.
    pub fn new(program: Loaded<'m>) -> Replay<'m>
        requires { recorded_of program ≡ no_steps }
        ensures follows { (o : Origin) (t : Trace) → IsOf program.entry o → Follows o t 0 result }
        ensures program { result.program ≡ program.entry }
    {
        Replay {
            program,
            asked: None,
            written: 0,
        }
    }

    /// Makes steps of code, up to so many in all.
    fn advance(&mut self, alloc: Global, steps: u64) -> Result<(), Memory>
        requires { (run_of self.old).steps ≤ steps }
        ensures along { OnOk result (GoesAlong self.old self.new) }
        ensures more { (run_of self.old).steps ≤ (run_of self.new).steps }
        ensures few { (run_of self.new).steps ≤ steps }
    {
        self.program.advance(alloc, steps)?;
        let _steps = self.program.steps();
        Ok(())
    }

    /// Makes one step of its own. False where it waits or has ended, or the step would be too deep, with nothing changed.
    fn step(&mut self, alloc: Global) -> Result<bool, Memory>
        requires following { IsFollowing self.old }
        requires few { (run_of self.old).steps < 18446744073709551615 }
        ensures along { OnOk result (GoesAlong self.old self.new) }
        ensures goes { IfOk result (λ goes. MatchBool goes ((run_of self.new).steps ≡ suc (run_of self.old).steps) (((run_of self.new).steps ≡ (run_of self.old).steps) × Stops self.old self.new)) }
    {
        if self.asked.is_some() || self.program.has_ended() {
            return Ok(false);
        }
        let event = self.program.run_step(alloc)?;
        if is_deep(&event) {
            return Ok(false);
        }
        self.asked = asked_by(event);
        Ok(true)
    }

    /// Makes steps of its own, up to so many in all, and at least one. False where it came to one that it can't make.
    fn go_on(&mut self, alloc: Global, steps: u64) -> Result<bool, Memory>
        requires following { IsFollowing self.old }
        requires few { (run_of self.old).steps < steps }
        ensures along { OnOk result (GoesAlong self.old self.new) }
        ensures goes { IfOk result (λ goes. MatchBool goes ((run_of self.old).steps < (run_of self.new).steps) (((run_of self.new).steps < steps) × Stops self.old self.new)) }
        ensures more { OnOk result ((run_of self.old).steps ≤ (run_of self.new).steps) }
        ensures few { OnOk result ((run_of self.new).steps ≤ steps) }
    {
        self.advance(alloc, steps)?;
        if self.program.steps() == steps {
            return Ok(true);
        }
        self.step(alloc)
    }

    /// Makes steps of its own to so many in all. False where it came to one before that it can't make.
    fn reach(&mut self, alloc: Global, steps: u64) -> Result<bool, Memory>
        requires following { IsFollowing self.old }
        requires few { (run_of self.old).steps ≤ steps }
        ensures along { OnOk result (GoesAlong self.old self.new) }
        ensures more { OnOk result ((run_of self.old).steps ≤ (run_of self.new).steps) }
        ensures reached { IfOk result (λ there. MatchBool there ((run_of self.new).steps ≡ steps) (((run_of self.new).steps < steps) × Stops self.old self.new)) }
    {
        while self.program.steps() < steps {
            if !self.go_on(alloc, steps)? {
                return Ok(false);
            }
        }
        Ok(true)
    }

    /// Whether the run waits for a call of a trace, whose answer fits.
    fn is_asked(&self, call: &TraceCall) -> bool
        requires { IsFollowing self.now }
        ensures { (o : Origin) (t : Trace) (k : ℕ) → Follows o t k self.now → Decides result (Asks o call.now self.now) }
    {
        let Some(asked) = &self.asked else {
            return false;
        };
        let host = host_at(self.program.hosts(), asked.entry);
        if !is_call(host, asked, call) {
            return false;
        }
        fits(&call.answer, host.ty.results.items(), self.program.memory())
    }

    /// Whether a host call is waited for and none is answered any more.
    fn is_full(&self) -> bool
        requires { IsFollowing self.now }
        ensures { result ≡ is_full self.now.asked (run_of self.now) }
    {
        self.asked.is_some() && are_many(self.program.answers(), self.written)
    }

    /// Goes to where the next call of a trace is waited for, whose run may make at most so many steps. Whether the call agrees.
    fn meet(&mut self, alloc: Global, call: &TraceCall, most: u64) -> Result<bool, Memory>
        requires following { IsFollowing self.old }
        ensures along { OnOk result (GoesAlong self.old self.new) }
        ensures met { IfOk result (λ met. (o : Origin) (t : Trace) (k : ℕ) → Follows o t k self.old → slice_get t.calls k ≡ Some call.now → t.steps ≡ most → MatchBool met (AtCall o t k call.now self.new) (Agrees (course_of o) t k call.now → ⊥)) }
        ensures few { IfOk result (λ met. met ≡ true → (run_of self.new).steps ≤ most) }
    {
        if call.steps > most || call.steps < self.program.steps() {
            return Ok(false);
        }
        if !self.reach(alloc, call.steps)? {
            return Ok(false);
        }
        Ok(self.is_asked(call))
    }

    /// Takes the answer of the call that it stands at.
    fn take(&mut self, alloc: Global, call: &TraceCall) -> Result<(), Memory>
        requires at { (o : Origin) × (t : Trace) × (k : ℕ) × AtCall o t k call.now self.old }
        requires room { is_full self.old.asked (run_of self.old) ≡ false }
        requires few { (run_of self.old).steps < 18446744073709551615 }
        ensures taken { OnOk result ((o : Origin) (t : Trace) (k : ℕ) → AtCall o t k call.now self.old → Follows o t (suc k) self.new) }
        ensures one { OnOk result ((run_of self.new).steps ≡ suc (run_of self.old).steps) }
    {
        let answer = copied_answer(alloc, &call.answer)?;
        self.written += bytes_written(&answer);
        self.program.answer(alloc, answer)?;
        let event = self.program.run_step(alloc)?;
        self.asked = asked_by(event);
        Ok(())
    }

    /// Follows the calls of a trace. With how many of them the run agrees.
    fn follow(&mut self, alloc: Global, trace: &Trace) -> Result<u32, Memory>
        requires following { (o : Origin) × Follows o trace.now 0 self.old }
        requires fresh { (run_of self.old).steps ≡ 0 }
        requires few { length trace.now.calls < 4294967296 }
        requires steps { trace.now.steps < 18446744073709551615 }
        ensures { IfOk result (λ k. (o : Origin) → Follows o trace.now 0 self.old → HasAgreed o trace.now k self.new) }
    {
        for (k, call) in trace.calls.items().iter().enumerate() {
            if !self.meet(alloc, call, trace.steps)? {
                return Ok(k as u32);
            }
            if call.steps == trace.steps || self.is_full() {
                return Ok(k as u32 + 1);
            }
            self.take(alloc, call)?;
        }
        Ok(trace.calls.items().len() as u32)
    }

    /// Goes on from the last call of a trace. Whether the run ends as the trace does.
    fn finish(&mut self, alloc: Global, trace: &Trace) -> Result<bool, Memory>
        requires met { (o : Origin) × HasMet o trace.now self.old }
        requires steps { trace.now.steps < 18446744073709551615 }
        ensures { IfOk result (λ ends. (o : Origin) → HasMet o trace.now self.old → Decides ends (Traces (course_of o) trace.now)) }
    {
        if !self.reach(alloc, trace.steps)? {
            return Ok(false);
        }
        self.stands_at(alloc, trace.end)
    }

    /// Whether the run stands in an end: by itself, or because of a limit.
    fn stands_at(&mut self, alloc: Global, end: TraceEnd) -> Result<bool, Memory>
        requires following { IsFollowing self.old }
        requires few { (run_of self.old).steps < 18446744073709551615 }
        ensures { IfOk result (λ stands. (o : Origin) (t : Trace) (k : ℕ) → Follows o t k self.old → Decides stands (StandsAt o end self.old)) }
    {
        match end {
            TraceEnd::StepLimit => Ok(!self.program.has_ended()),
            TraceEnd::HostCallLimit => Ok(self.is_full()),
            end => {
                let told = self.own_end(alloc)?;
                Ok(is_told(end, told))
            }
        }
    }

    /// The end in which the run stands by itself, or because its next step would be too deep.
    fn own_end(&mut self, alloc: Global) -> Result<Option<RunEnd>, Memory>
        requires following { IsFollowing self.old }
        requires few { (run_of self.old).steps < 18446744073709551615 }
        ensures { IfOk result (λ told. (o : Origin) (t : Trace) (k : ℕ) → Follows o t k self.old → told ≡ own_end (status_at (course_of o) (run_of self.old)) ((course_of o).deep (state_at (course_of o) (run_of self.old)))) }
    {
        if self.asked.is_some() {
            return Ok(None);
        }
        let ended = self.program.has_ended();
        let event = self.program.run_step(alloc)?;
        if ended || is_deep(&event) {
            Ok(end_by(&event))
        } else {
            Ok(None)
        }
    }

    /// Compares the run with a trace. Where it isn't that of the trace, with how many calls it agrees.
    pub fn compare(&mut self, alloc: Global, trace: &Trace) -> Result<Option<u32>, Memory>
        requires following { (o : Origin) × Follows o trace.now 0 self.old }
        requires fresh { (run_of self.old).steps ≡ 0 }
        requires few { length trace.now.calls < 4294967296 }
        requires steps { trace.now.steps < 18446744073709551615 }
        ensures { IfOk result (λ told. (o : Origin) → Follows o trace.now 0 self.old → Compares o trace.now told) }
    {
        let agreeing = self.follow(alloc, trace)?;
        if (agreeing as usize) < trace.calls.items().len() {
            return Ok(Some(agreeing));
        }
        if self.finish(alloc, trace)? {
            Ok(None)
        } else {
            Ok(Some(agreeing))
        }
    }

    /// Ends it.
    pub fn end(self) {
        let Replay {
            program,
            asked: _asked,
            written: _written,
        } = self;
        drop(program.into_answers());
    }
}
