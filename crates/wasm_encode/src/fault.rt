// Why something isn't written.
ghost use Rattle.std.specs.Prelude.{◌≡◌};
ghost use Rattle.wasm_encode.specs.declared.fault.EncodeFault.TheVariants as encode;
ghost use Rattle.wasm_encode.specs.declared.fault.PartFault.TheVariants as part;

use std::alloc::{AllocError, AllocFailed};
use thiserror::Error;
use wasm_form::Memory;

/// Why a module isn't written.
#[derive(Clone, Copy, Debug, PartialEq, Eq, Error)]
pub enum EncodeFault {
    /// The contents of the section with this number take 2^32 bytes or more, and their size is a number of 32 bits.
    #[error("the contents of section {id} take 4294967296 bytes or more")]
    SectionSize { id: u8 },
    /// No memory could be had.
    #[error("no memory could be had")]
    Memory,
}

impl From<Memory> for EncodeFault {
    ghost from_gives = { λ _ fault. fault ≡ encode.Memory };

    fn from(_: Memory) -> EncodeFault {
        EncodeFault::Memory
    }
}

impl From<AllocError> for EncodeFault {
    ghost from_gives = { λ _ fault. fault ≡ encode.Memory };

    fn from(_: AllocError) -> EncodeFault {
        EncodeFault::Memory
    }
}

impl<T: Drop> From<AllocFailed<T>> for EncodeFault {
    ghost from_gives = { λ _ fault. fault ≡ encode.Memory };

    fn from(_: AllocFailed<T>) -> EncodeFault {
        EncodeFault::Memory
    }
}

/// Why a part of a section isn't written.
#[derive(Clone, Copy, Debug, PartialEq, Eq)]
pub(crate) enum PartFault {
    /// Its size takes more than 32 bits.
    TooLong,
    Memory,
}

impl From<Memory> for PartFault {
    ghost from_gives = { λ _ fault. fault ≡ part.Memory };

    fn from(_: Memory) -> PartFault {
        PartFault::Memory
    }
}

impl From<AllocError> for PartFault {
    ghost from_gives = { λ _ fault. fault ≡ part.Memory };

    fn from(_: AllocError) -> PartFault {
        PartFault::Memory
    }
}

impl<T: Drop> From<AllocFailed<T>> for PartFault {
    ghost from_gives = { λ _ fault. fault ≡ part.Memory };

    fn from(_: AllocFailed<T>) -> PartFault {
        PartFault::Memory
    }
}
