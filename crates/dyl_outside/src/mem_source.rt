// A source in memory.
ghost use Rattle.std.specs.Prelude.{◌≡◌, ◌↔◌, ◌<◌, ◌≤◌, ◌∷◌, [], ◌++◌, drop, length, IfOk, OnOk, OnErr, Contains};
ghost use Rattle.dyl_outside.specs.Faults.{FaultCount, risen};
ghost use Rattle.dyl_outside.specs.Source.{IsTaken};

use crate::calls::Calls;
use crate::{IoFault, Source};
use std::alloc::Global;
use std::marker::Model;
use wasm_form::Memory;

/// A source in memory. It is full, tells the bytes left, and fails exactly at the calls that `fail_at`
/// was given.
#[derive(Drop)]
pub struct MemSource {
    bytes: Vec<u8>,
    start: usize,
    calls: Calls,
    faults: u64,
}

impl Model for MemSource {
    ghost use Rattle.std.specs.Prelude.{◌≤◌, drop, length};
    ghost use Rattle.dyl_outside.specs.MemSource.{MemSourceState};

    ghost Value = { MemSourceState };

    ghost view = { λ s. record {
      left = drop s.start s.bytes.items;
      failing = s.calls.failing.items;
      next_call = s.calls.next;
      faults = s.faults;
    } };

    ghost invariant = { λ s. s.start ≤ length s.bytes.items };
}

impl MemSource {
    /// A source with these bytes left. No call is to fail.
    pub fn new(alloc: Global, bytes: Vec<u8>) -> MemSource
        ensures { result ≡ record { left = bytes.items; failing = []; next_call = 0; faults = 0 } }
    {
        MemSource {
            bytes,
            start: 0,
            calls: Calls::new(alloc),
            faults: 0,
        }
    }

    /// Lets the take with this number fail, counted from 0 and up to 2^64 - 1, where the number stays. It
    /// then takes nothing.
    pub fn fail_at(&mut self, _alloc: Global, call: u64) -> Result<(), Memory>
        ensures ok { OnOk result (self.new ≡ record self.old { failing = self.old.failing ++ call ∷ [] }) }
        ensures err { OnErr result (self.new ≡ self.old) }
    {
        self.calls.fail_at(call)
    }
}

impl Source for MemSource {
    ghost use Rattle.std.specs.Prelude.{Some, true};

    ghost seen = { λ s. record { left = Some s.left; full = true; faults = s.faults } };

    fn take(&mut self, alloc: Global, most: usize) -> Result<Vec<u8>, IoFault>
        requires { 0 < most }
        ensures answer { IsTaken self.old.left true most result (Some self.new.left) }
        ensures size { IfOk result (λ bytes. length bytes.items ≤ most) }
        ensures count { FaultCount result self.old.faults self.new.faults }

        // It fails exactly at the numbers that were given.
        ensures failed { (result ≡ Err IoFault.Failed) ↔ Contains self.old.failing self.old.next_call }
        ensures failing { self.new.failing ≡ self.old.failing }
        ensures next_call { self.new.next_call ≡ risen self.old.next_call }
    {
        if self.calls.fails() {
            self.faults = self.faults.saturating_add(1);
            return Err(IoFault::Failed);
        }
        let count = most.min(self.bytes.len() - self.start);
        let Ok(taken) = self.bytes[self.start..self.start + count].to_vec(alloc) else {
            return Err(IoFault::Memory);
        };
        self.start += count;
        Ok(taken)
    }
}
