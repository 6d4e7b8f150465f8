// Why no snapshot is written.
use wasm_form::{Memory, Trap};

/// Why there is no snapshot of a linked set after its start-up.
#[derive(Clone, Copy, Debug, PartialEq, Eq)]
pub enum SnapFault {
    /// Start-up waits for a host function.
    HostCall,
    /// Start-up trapped.
    Trap(Trap),
    /// All steps were made before the entry was called.
    Steps,
    /// The next step of start-up would pass a limit of depth.
    Depth,
    /// The contents of the section with this number would take 2^32 bytes or more, and their size is a number of 32 bits.
    SectionSize { id: u8 },
    /// No memory could be had.
    Memory,
}

impl From<Memory> for SnapFault {
    ghost use Rattle.std.specs.Prelude.{◌≡◌};
    ghost use Rattle.spec_snapshots.specs.declared.fault.SnapFault.TheVariants as faults;

    ghost from_gives = { λ _ e. e ≡ faults.Memory };

    fn from(_: Memory) -> SnapFault {
        SnapFault::Memory
    }
}
