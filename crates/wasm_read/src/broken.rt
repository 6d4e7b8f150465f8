// Why a reader ends.
use std::alloc::{AllocError, AllocFailed};

/// Why reading ends: the bytes break off being well spelled, or a limit of this program is passed before that
/// (WebAssembly Core 2.0, appendix A.2), or no memory could be had.
#[derive(Clone, Copy, Debug, PartialEq, Eq)]
pub enum Break {
    /// The bytes spell nothing of this kind.
    Broken,
    /// More blocks are nested than may be.
    TooDeep,
    /// More locals are declared than may be.
    TooManyLocals,
    /// No memory could be had.
    Memory,
}

impl From<AllocError> for Break {
    ghost use Rattle.std.specs.Prelude.{◌≡◌};
    ghost use Rattle.wasm_read.specs.declared.broken.Break.TheVariants as breaks;

    ghost from_gives = { λ _ e. e ≡ breaks.Memory };

    fn from(_: AllocError) -> Break {
        Break::Memory
    }
}

impl<T: Drop> From<AllocFailed<T>> for Break {
    ghost use Rattle.std.specs.Prelude.{◌≡◌};
    ghost use Rattle.wasm_read.specs.declared.broken.Break.TheVariants as breaks;

    ghost from_gives = { λ _ e. e ≡ breaks.Memory };

    fn from(_: AllocFailed<T>) -> Break {
        Break::Memory
    }
}
