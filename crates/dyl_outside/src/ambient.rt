// The clock and the random words, as a caller sees them.
ghost use Rattle.dyl_outside.specs.Ambient.{AmbientState, GivesTime, GivesWord};

use crate::IoFault;
use std::alloc::Global;

/// A clock, and random words. No count of it ever falls.
pub trait Ambient {
    /// What is seen of it.
    ghost seen: { Self → AmbientState };

    /// The next time, in nanoseconds since the start of 1970.
    ///
    /// Failed comes only where the count of faults rose in this call. After Failed and after Memory
    /// the times and the words left are as before.
    fn now(&mut self, alloc: Global) -> Result<u64, IoFault>
        ensures { GivesTime result (seen self.old) (seen self.new) };

    /// The next 64 random bits.
    ///
    /// Failed comes only where the count of faults rose in this call. After Failed and after Memory
    /// the times and the words left are as before.
    fn word(&mut self, alloc: Global) -> Result<u64, IoFault>
        ensures { GivesWord result (seen self.old) (seen self.new) };
}
