// Why no merged module is written.
use wasm_form::Memory;

/// Why a linked set isn't merged.
#[derive(Clone, Copy, Debug, PartialEq, Eq)]
pub enum MergeFault {
    /// The contents of the section with this number would take 2^32 bytes or more, and their size is a number of 32 bits.
    SectionSize { id: u8 },
    /// No memory could be had.
    Memory,
}

impl From<Memory> for MergeFault {
    ghost use Rattle.std.specs.Prelude.{◌≡◌};
    ghost use Rattle.spec_merging.specs.declared.fault.MergeFault.TheVariants as faults;

    ghost from_gives = { λ _ e. e ≡ faults.Memory };

    fn from(_: Memory) -> MergeFault {
        MergeFault::Memory
    }
}
