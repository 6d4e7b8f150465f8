// A sink in memory.
ghost use Rattle.std.specs.Prelude.{◌≡◌, ◌↔◌, ◌∷◌, [], ◌++◌, OnOk, OnErr, Contains};
ghost use Rattle.dyl_outside.specs.Faults.{FaultCount, risen};
ghost use Rattle.dyl_outside.specs.Sink.{IsPut};

use crate::calls::Calls;
use crate::{IoFault, Sink};
use std::alloc::Global;
use std::marker::Model;
use wasm_form::Memory;

/// A sink in memory. It tells what it holds, and fails exactly at the calls that `fail_at` was given.
#[derive(Drop)]
pub struct MemSink {
    bytes: Vec<u8>,
    calls: Calls,
    faults: u64,
}

impl Model for MemSink {
    ghost use Rattle.dyl_outside.specs.MemSink.{MemSinkState};

    ghost Value = { MemSinkState };

    ghost view = { λ s. record {
      held = s.bytes.items;
      failing = s.calls.failing.items;
      next_call = s.calls.next;
      faults = s.faults;
    } };
}

impl MemSink {
    /// A sink that holds nothing. No call is to fail.
    pub fn new(alloc: Global) -> MemSink
        ensures { result ≡ record { held = []; failing = []; next_call = 0; faults = 0 } }
    {
        MemSink {
            bytes: Vec::new(alloc),
            calls: Calls::new(alloc),
            faults: 0,
        }
    }

    /// The bytes that it holds.
    pub fn held(&self) -> &[u8]
        ensures { result.now ≡ self.now.held }
    {
        &self.bytes
    }

    /// Lets the put with this number fail, counted from 0 and up to 2^64 - 1, where the number stays. It
    /// then appends nothing.
    pub fn fail_at(&mut self, _alloc: Global, call: u64) -> Result<(), Memory>
        ensures ok { OnOk result (self.new ≡ record self.old { failing = self.old.failing ++ call ∷ [] }) }
        ensures err { OnErr result (self.new ≡ self.old) }
    {
        self.calls.fail_at(call)
    }
}

impl Sink for MemSink {
    ghost use Rattle.std.specs.Prelude.{Some};

    ghost seen = { λ s. record { held = Some s.held; faults = s.faults } };

    fn put(&mut self, _alloc: Global, bytes: &[u8]) -> Result<(), IoFault>
        ensures answer { IsPut self.old.held bytes.now result (Some self.new.held) }
        ensures count { FaultCount result self.old.faults self.new.faults }

        // It fails exactly at the numbers that were given, and then appends nothing.
        ensures failed { (result ≡ Err IoFault.Failed) ↔ Contains self.old.failing self.old.next_call }
        ensures kept { OnErr result (self.new.held ≡ self.old.held) }
        ensures failing { self.new.failing ≡ self.old.failing }
        ensures next_call { self.new.next_call ≡ risen self.old.next_call }
    {
        if self.calls.fails() {
            self.faults = self.faults.saturating_add(1);
            return Err(IoFault::Failed);
        }
        self.bytes
            .extend_from_slice(bytes)
            .map_err(|_| IoFault::Memory)
    }
}
