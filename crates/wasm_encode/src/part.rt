// What stands in the vectors of the format, and vectors of it (section 5.1.3).
ghost use Rattle.std.specs.Prelude.{◌≡◌, ℕ, ◌^◌, ◌<◌, ◌≤◌, List as Listing, length, All, Contains, OnOk};
ghost use Rattle.spec_reading.specs.spec_binary.Number.{IsShortest, Appends, SpellsUnsigned};
ghost use Rattle.spec_reading.specs.spec_binary.Sequence.{SpellsEach, SpellsVec};
ghost use Rattle.spec_reading.specs.spec_binary.Parts.{SpellsByte};
ghost use Rattle.spec_reading.specs.spec_binary.Joined.{IsByte, Joined, IsSized};

use crate::fault::PartFault;
use std::alloc::Global;
use wasm_form::Memory;
use wasm_leb::put_u32;

/// What stands in a vector of the format.
pub(crate) trait Part {
    /// Whether it can be written.
    ghost writable: { Self → Type 0 };
    /// Which bytes spell it.
    ghost spells: { Self → Listing ℕ → Type 0 };
    /// Whether its size takes more than 32 bits.
    ghost too_long: { Self → Type 0 };

    /// Writes its shortest spelling at the end.
    fn put(&self, alloc: Global, to: &mut Vec<u8>) -> Result<(), PartFault>
        requires { writable self.now }
        ensures ok { OnOk result (Appends (IsShortest (spells self.now)) to.old.items to.new.items) }
        ensures long { result ≡ Err PartFault.TooLong → too_long self.now };
}

impl Part for u8 {
    ghost writable = { λ _. Unit {0} };

    ghost spells = { SpellsByte };

    ghost too_long = { λ _. ⊥ };

    fn put(&self, _: Global, to: &mut Vec<u8>) -> Result<(), PartFault> {
        to.push(*self)?;
        Ok(())
    }
}

impl Part for u32 {
    ghost writable = { λ _. Unit {0} };

    ghost spells = { SpellsUnsigned 32 };

    ghost too_long = { λ _. ⊥ };

    fn put(&self, alloc: Global, to: &mut Vec<u8>) -> Result<(), PartFault> {
        put_u32(alloc, to, *self)?;
        Ok(())
    }
}

/// Writes two numbers.
pub(crate) fn put_two(alloc: Global, a: u32, b: u32, to: &mut Vec<u8>) -> Result<(), Memory>
    ensures { OnOk result (Appends (IsShortest (Joined (SpellsUnsigned 32 a) (SpellsUnsigned 32 b))) to.old.items to.new.items) }
{
    put_u32(alloc, to, a)?;
    put_u32(alloc, to, b)
}

/// Writes a byte and a number after it.
pub(crate) fn put_numbered(
    alloc: Global,
    byte: u8,
    number: u32,
    to: &mut Vec<u8>,
) -> Result<(), Memory>
    ensures { OnOk result (Appends (IsShortest (Joined (IsByte byte) (SpellsUnsigned 32 number))) to.old.items to.new.items) }
{
    to.push(byte)?;
    put_u32(alloc, to, number)
}

/// Writes each of a list, one after the other.
pub(crate) fn put_each<T: Part>(
    alloc: Global,
    items: &[T],
    to: &mut Vec<u8>,
) -> Result<(), PartFault>
    requires { All T.writable items.now }
    ensures ok { OnOk result (Appends (IsShortest (SpellsEach T.spells items.now)) to.old.items to.new.items) }
    ensures long { result ≡ Err PartFault.TooLong → (x : T) × Contains items.now x × T.too_long x }
{
    for item in items {
        item.put(alloc, to)?;
    }
    Ok(())
}

/// Writes the length of a list and then each of it.
pub(crate) fn put_vec<T: Part>(
    alloc: Global,
    items: &[T],
    to: &mut Vec<u8>,
) -> Result<(), PartFault>
    requires short { length items.now < 2 ^ 32 }
    requires writable { All T.writable items.now }
    ensures ok { OnOk result (Appends (IsShortest (SpellsVec T.spells items.now)) to.old.items to.new.items) }
    ensures long { result ≡ Err PartFault.TooLong → (x : T) × Contains items.now x × T.too_long x }
{
    put_u32(alloc, to, items.len() as u32)?;
    put_each(alloc, items, to)
}

/// Writes the size of contents and then the contents.
pub(crate) fn put_sized(alloc: Global, contents: &[u8], to: &mut Vec<u8>) -> Result<(), PartFault>
    ensures ok { OnOk result (Appends (IsSized contents.now) to.old.items to.new.items) }
    ensures long { result ≡ Err PartFault.TooLong → 2 ^ 32 ≤ length contents.now }
{
    if contents.len() > u32::MAX as usize {
        return Err(PartFault::TooLong);
    }
    put_u32(alloc, to, contents.len() as u32)?;
    to.extend_from_slice(contents)?;
    Ok(())
}
