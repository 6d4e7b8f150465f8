// A source without bytes.
use crate::{IoFault, Source};
use std::alloc::Global;

/// A source without bytes. It is full.
#[derive(Drop)]
pub struct EmptySource;

impl Source for EmptySource {
    ghost use Rattle.std.specs.Prelude.{Some, [], true};

    ghost seen = { λ s. record { left = Some []; full = true; faults = 0 } };

    fn take(&mut self, alloc: Global, _most: usize) -> Result<Vec<u8>, IoFault> {
        Ok(Vec::new(alloc))
    }
}
