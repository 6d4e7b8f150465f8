// Why a text isn't performed.
use spec_binary::wasm_form::Memory;
use std::alloc::{AllocError, AllocFailed};
use std::num::ParseIntError;

/// Why a text isn't performed: it stands for nothing, as a word that wasn't named or a number that isn't one, or no memory could be had.
#[derive(Clone, Copy, Debug, PartialEq, Eq)]
pub enum Refused {
    Text,
    Memory,
}

impl From<Memory> for Refused {
    fn from(_: Memory) -> Refused {
        Refused::Memory
    }
}

impl From<AllocError> for Refused {
    fn from(_: AllocError) -> Refused {
        Refused::Memory
    }
}

impl<T: Drop> From<AllocFailed<T>> for Refused {
    fn from(_: AllocFailed<T>) -> Refused {
        Refused::Memory
    }
}

impl From<ParseIntError> for Refused {
    fn from(_: ParseIntError) -> Refused {
        Refused::Text
    }
}
