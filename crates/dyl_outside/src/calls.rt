// Which calls on an object in memory are to fail.
ghost use Rattle.std.specs.Prelude.{◌≡◌, ◌↔◌, ◌∷◌, [], ◌++◌, IsTrue, OnOk, OnErr, Contains};
ghost use Rattle.dyl_outside.specs.Faults.{risen};

use std::alloc::Global;
use wasm_form::Memory;

/// The numbers of the calls that are to fail, and the number of the next call, counted from 0. That
/// one stays at its last value, 2^64 - 1.
#[derive(Drop)]
pub struct Calls {
    pub failing: Vec<u64>,
    pub next: u64,
}

impl Calls {
    /// No call is to fail, and none was made.
    pub fn new(alloc: Global) -> Calls
        ensures failing { result.failing.items ≡ [] }
        ensures next { result.next ≡ 0 }
    {
        Calls {
            failing: Vec::new(alloc),
            next: 0,
        }
    }

    /// Lets the call with this number fail.
    pub fn fail_at(&mut self, call: u64) -> Result<(), Memory>
        ensures ok { OnOk result (self.new.failing.items ≡ self.old.failing.items ++ call ∷ []) }
        ensures err { OnErr result (self.new.failing.items ≡ self.old.failing.items) }
        ensures next { self.new.next ≡ self.old.next }
    {
        self.failing.push(call)?;
        Ok(())
    }

    /// Counts a call, and says whether it is to fail.
    pub fn fails(&mut self) -> bool
        ensures due { IsTrue result ↔ Contains self.old.failing.items self.old.next }
        ensures failing { self.new.failing.items ≡ self.old.failing.items }
        ensures next { self.new.next ≡ risen self.old.next }
    {
        let fails = self.failing.contains(&self.next);
        self.next = self.next.saturating_add(1);
        fails
    }
}
