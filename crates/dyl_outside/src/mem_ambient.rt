// A clock and random words in memory.
ghost use Rattle.std.specs.Prelude.{◌≡◌, ◌↔◌, ◌∷◌, [], ◌++◌, OnOk, OnErr};
ghost use Rattle.dyl_outside.specs.Ambient.{IsNext};
ghost use Rattle.dyl_outside.specs.Faults.{FaultCount, risen};
ghost use Rattle.dyl_outside.specs.MemAmbient.{FailsAt};

use crate::calls::Calls;
use crate::{Ambient, IoFault};
use std::alloc::Global;
use std::marker::Model;
use wasm_form::Memory;

/// A clock and random words in memory. It tells what is left of both, and fails exactly at the calls
/// that `fail_at` was given, or where nothing is left of what a call asks for.
#[derive(Drop)]
pub struct MemAmbient {
    times: Vec<u64>,
    words: Vec<u64>,
    calls: Calls,
    faults: u64,
}

impl Model for MemAmbient {
    ghost use Rattle.std.specs.Prelude.{reverse};
    ghost use Rattle.dyl_outside.specs.MemAmbient.{MemAmbientState};

    ghost Value = { MemAmbientState };

    // The next of the values stands last, so that it is popped.
    ghost view = { λ s. record {
      times = reverse s.times.items;
      words = reverse s.words.items;
      failing = s.calls.failing.items;
      next_call = s.calls.next;
      faults = s.faults;
    } };
}

impl MemAmbient {
    /// A clock that gives these times, in nanoseconds, and these random words, each from the first on. No
    /// call is to fail.
    pub fn new(alloc: Global, times: Vec<u64>, words: Vec<u64>) -> MemAmbient
        ensures { result ≡ record { times = times.items; words = words.items; failing = []; next_call = 0; faults = 0 } }
    {
        let mut times = times;
        let mut words = words;
        times.reverse();
        words.reverse();
        MemAmbient {
            times,
            words,
            calls: Calls::new(alloc),
            faults: 0,
        }
    }

    /// Lets the call with this number fail, counted from 0 over both kinds of calls and up to 2^64 - 1,
    /// where the number stays. It then takes neither a time nor a word.
    pub fn fail_at(&mut self, _alloc: Global, call: u64) -> Result<(), Memory>
        ensures ok { OnOk result (self.new ≡ record self.old { failing = self.old.failing ++ call ∷ [] }) }
        ensures err { OnErr result (self.new ≡ self.old) }
    {
        self.calls.fail_at(call)
    }
}

impl Ambient for MemAmbient {
    ghost use Rattle.std.specs.Prelude.{Some};

    ghost seen = { λ s. record { times = Some s.times; words = Some s.words; faults = s.faults } };

    fn now(&mut self, _alloc: Global) -> Result<u64, IoFault>
        ensures answer { IsNext self.old.times result (Some self.new.times) }
        ensures others { self.new.words ≡ self.old.words }
        ensures count { FaultCount result self.old.faults self.new.faults }

        // It fails exactly at the numbers that were given, and where no time is left.
        ensures failed { (result ≡ Err IoFault.Failed) ↔ FailsAt self.old.failing self.old.next_call self.old.times }
        ensures failing { self.new.failing ≡ self.old.failing }
        ensures next_call { self.new.next_call ≡ risen self.old.next_call }
    {
        if self.calls.fails() {
            self.faults = self.faults.saturating_add(1);
            return Err(IoFault::Failed);
        }
        let Some(time) = self.times.pop() else {
            self.faults = self.faults.saturating_add(1);
            return Err(IoFault::Failed);
        };
        Ok(time)
    }

    fn word(&mut self, _alloc: Global) -> Result<u64, IoFault>
        ensures answer { IsNext self.old.words result (Some self.new.words) }
        ensures others { self.new.times ≡ self.old.times }
        ensures count { FaultCount result self.old.faults self.new.faults }

        // It fails exactly at the numbers that were given, and where no word is left.
        ensures failed { (result ≡ Err IoFault.Failed) ↔ FailsAt self.old.failing self.old.next_call self.old.words }
        ensures failing { self.new.failing ≡ self.old.failing }
        ensures next_call { self.new.next_call ≡ risen self.old.next_call }
    {
        if self.calls.fails() {
            self.faults = self.faults.saturating_add(1);
            return Err(IoFault::Failed);
        }
        let Some(word) = self.words.pop() else {
            self.faults = self.faults.saturating_add(1);
            return Err(IoFault::Failed);
        };
        Ok(word)
    }
}
