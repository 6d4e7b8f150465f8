// Why no set is made.
ghost use Rattle.std.specs.Prelude.{◌≡◌};
ghost use Rattle.dyl_gen.specs.declared.fault.GenFault.TheVariants as faults;

use wasm_form::Memory;

/// Why no set is made.
#[derive(Clone, Copy, Debug, PartialEq, Eq)]
pub enum GenFault {
    /// The number is 0, or above 255.
    Range,
    /// No memory could be had.
    Memory,
}

impl From<Memory> for GenFault {
    ghost from_gives = { λ _ fault. fault ≡ faults.Memory };

    fn from(_: Memory) -> GenFault {
        GenFault::Memory
    }
}
