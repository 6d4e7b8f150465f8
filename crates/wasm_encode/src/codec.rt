// Writing and reading together: a module that is written is read again as it was.
ghost use Rattle.std.specs.Prelude.{◌≡◌, ◌⊎◌, ℕ, IfOk};
ghost use Rattle.spec_reading.specs.spec_binary.WellFormed.{IsWellFormed};
ghost use Rattle.spec_reading.specs.spec_binary.Modules.{SpellsModule};
ghost use Rattle.wasm_encode.specs.SectionSizes.{IsFirstTooLong};

use crate::{EncodeFault, encode};
use std::alloc::Global;
use wasm_decode::{DecodeFault, decode};
use wasm_form::{Memory, Module};

// Reads the bytes that spell a well formed module.
fn read_again(alloc: Global, m: &Module, bytes: &[u8]) -> Result<Module, Memory>
    requires formed { IsWellFormed m.now }
    requires spelled { SpellsModule m.now bytes.now }
    ensures { IfOk result (λ read. read ≡ m.now) }
{
    match decode(alloc, bytes) {
        Ok(read) => Ok(read),
        Err(DecodeFault::Memory) => Err(Memory),
        Err(DecodeFault::Malformed { .. }) => unreachable!(),
        Err(DecodeFault::Counts) => unreachable!(),
        Err(DecodeFault::TooDeep { .. }) => unreachable!(),
        Err(DecodeFault::TooManyLocals { .. }) => unreachable!(),
    }
}

/// Writes a module and reads it again, which gives the module again.
///
/// `SectionSize` comes where the contents of a section take 2^32 bytes or more, with the number of the first such section;
/// `Memory` where no memory could be had.
pub fn round_trip(alloc: Global, m: &Module) -> Result<Module, EncodeFault>
    requires { IsWellFormed m.now }
    ensures same { IfOk result (λ read. read ≡ m.now) }
    ensures too_long { (id : ℕ) → result ≡ Err (EncodeFault.SectionSize id) → IsFirstTooLong m.now id }
    ensures only_too_long { (id : ℕ) → IsFirstTooLong m.now id → (result ≡ Err (EncodeFault.SectionSize id)) ⊎ (result ≡ Err EncodeFault.Memory) }
{
    match encode(alloc, m) {
        Ok(bytes) => match read_again(alloc, m, &bytes) {
            Ok(read) => Ok(read),
            Err(Memory) => Err(EncodeFault::Memory),
        },
        Err(EncodeFault::SectionSize { id }) => Err(EncodeFault::SectionSize { id }),
        Err(EncodeFault::Memory) => Err(EncodeFault::Memory),
    }
}
