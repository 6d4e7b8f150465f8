// A source of bytes, as a caller sees it.
ghost use Rattle.std.specs.Prelude.{◌<◌};
ghost use Rattle.dyl_outside.specs.Source.{SourceState, Takes};

use crate::IoFault;
use std::alloc::Global;

/// Bytes to be taken from the front, as a program's input. No count of it ever falls.
pub trait Source {
    /// What is seen of it.
    ghost seen: { Self → SourceState };

    /// Takes from 1 to `most` of the next bytes, or none exactly at the end. A full source gives `most`
    /// bytes, or all that are left where these are fewer.
    ///
    /// Failed comes only where the count of faults rose in this call. After Failed and after Memory
    /// the bytes left are as before.
    fn take(&mut self, alloc: Global, most: usize) -> Result<Vec<u8>, IoFault>
        requires { 0 < most }
        ensures { Takes most result (seen self.old) (seen self.new) };
}
