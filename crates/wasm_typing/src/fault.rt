// Why a body has no type.
use std::alloc::{AllocError, AllocFailed};

/// Why no height was found.
#[derive(Clone, Copy, Debug, PartialEq, Eq)]
pub enum TypingFault {
    /// The body is not well typed.
    Invalid,
    /// No memory could be had.
    Memory,
}

impl From<AllocError> for TypingFault {
    ghost use Rattle.std.specs.Prelude.{◌≡◌};
    ghost use Rattle.wasm_typing.specs.declared.fault.TypingFault.TheVariants as faults;

    ghost from_gives = { λ _ e. e ≡ faults.Memory };

    fn from(_: AllocError) -> TypingFault {
        TypingFault::Memory
    }
}

impl<T: Drop> From<AllocFailed<T>> for TypingFault {
    ghost use Rattle.std.specs.Prelude.{◌≡◌};
    ghost use Rattle.wasm_typing.specs.declared.fault.TypingFault.TheVariants as faults;

    ghost from_gives = { λ _ e. e ≡ faults.Memory };

    fn from(_: AllocFailed<T>) -> TypingFault {
        TypingFault::Memory
    }
}
