// A sink in memory.
ghost use Rattle.std.specs.Prelude.{◌≡◌, []};

use crate::{IoFault, Sink};
use std::alloc::Global;
use std::marker::Model;
use wasm_form::List;

/// A sink in memory. It tells what it holds.
#[derive(Drop)]
pub struct HeldSink {
    bytes: Vec<u8>,
}

impl Model for HeldSink {
    ghost use Rattle.std.specs.Prelude.{ℕ, List};

    ghost Value = { List ℕ };

    ghost view = { λ s. s.bytes.items };
}

impl HeldSink {
    /// A sink that holds nothing.
    pub fn new(alloc: Global) -> HeldSink
        ensures { result ≡ [] }
    {
        HeldSink {
            bytes: Vec::new(alloc),
        }
    }

    /// The bytes that it holds.
    pub fn into_bytes(self) -> List<u8>
        ensures { result ≡ self }
    {
        List::of(self.bytes)
    }
}

impl Sink for HeldSink {
    ghost use Rattle.std.specs.Prelude.{Some};

    ghost seen = { λ s. record { held = Some s; faults = 0 } };

    fn put(&mut self, _alloc: Global, bytes: &[u8]) -> Result<(), IoFault> {
        self.bytes
            .extend_from_slice(bytes)
            .map_err(|_| IoFault::Memory)
    }
}
