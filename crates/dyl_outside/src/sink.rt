// A sink of bytes, as a caller sees it.
ghost use Rattle.dyl_outside.specs.Sink.{SinkState, Puts};

use crate::IoFault;
use std::alloc::Global;

/// Bytes to be put at the end, as a program's output. No count of it ever falls.
pub trait Sink {
    /// What is seen of it.
    ghost seen: { Self → SinkState };

    /// Appends these bytes.
    ///
    /// After Failed a prefix of them was appended, maybe none, and the count of faults rose in this
    /// call. After Memory nothing was appended.
    fn put(&mut self, alloc: Global, bytes: &[u8]) -> Result<(), IoFault>
        ensures { Puts bytes.now result (seen self.old) (seen self.new) };
}
