// Sections (section 5.5.2).
ghost use Rattle.std.specs.Prelude.{
  ◌≡◌,
  ℕ,
  ◌^◌,
  ◌<◌,
  ◌≤◌,
  List as Listing,
  [],
  length,
  All,
  None,
  OnOk,
  IfOk,
};
ghost use Rattle.spec_reading.specs.spec_binary.Number.{IsShortest, Appends};
ghost use Rattle.spec_reading.specs.spec_binary.Sequence.{SpellsVec};
ghost use Rattle.spec_reading.specs.spec_binary.Sections.{IsSection};
ghost use Rattle.spec_reading.specs.spec_binary.WellFormed.{IsShort};
ghost use Rattle.wasm_encode.specs.SectionSizes.{IsTooLongCustom};
ghost use Rattle.wasm_encode.specs.Written.{
  AddsSection,
  IsLongList,
  SpellsSome,
  SpellsCustom,
  IsRankRun,
  AddsCustoms,
  IsLongCustom,
};

use crate::fault::{EncodeFault, PartFault};
use crate::part::{Part, put_each, put_sized, put_vec};
use std::alloc::Global;
use wasm_form::Custom;
use wasm_leb::{put_name, put_u32};

/// Writes the section with this number and these contents.
fn put_framed(alloc: Global, id: u8, contents: &[u8], to: &mut Vec<u8>) -> Result<(), PartFault>
    ensures ok { OnOk result (Appends (IsShortest (IsSection id contents.now)) to.old.items to.new.items) }
    ensures long { result ≡ Err PartFault.TooLong → 2 ^ 32 ≤ length contents.now }
{
    to.push(id)?;
    put_sized(alloc, contents, to)
}

/// Writes the section with this number that holds a list which isn't empty.
fn put_list<T: Part>(alloc: Global, id: u8, items: &[T], to: &mut Vec<u8>) -> Result<(), PartFault>
    requires short { length items.now < 2 ^ 32 }
    requires writable { All T.writable items.now }
    requires some { 0 < length items.now }
    ensures ok { OnOk result (AddsSection (items.now ≡ []) (SpellsVec T.spells items.now) id to.old.items to.new.items) }
    ensures long { result ≡ Err PartFault.TooLong → IsLongList T.spells T.too_long items.now }
{
    let mut contents = Vec::new(alloc);
    put_vec(alloc, items, &mut contents)?;
    put_framed(alloc, id, &contents, to)
}

/// Writes the section with this number, or nothing where it would be empty.
pub(crate) fn put_section<T: Part>(
    alloc: Global,
    id: u8,
    items: &[T],
    to: &mut Vec<u8>,
) -> Result<(), EncodeFault>
    requires short { length items.now < 2 ^ 32 }
    requires writable { All T.writable items.now }
    ensures ok { OnOk result (AddsSection (items.now ≡ []) (SpellsVec T.spells items.now) id to.old.items to.new.items) }
    ensures long { (n : ℕ) → result ≡ Err (EncodeFault.SectionSize n) → (n ≡ id) × IsLongList T.spells T.too_long items.now }
{
    if items.is_empty() {
        return Ok(());
    }
    match put_list(alloc, id, items, to) {
        Ok(()) => Ok(()),
        Err(PartFault::TooLong) => Err(EncodeFault::SectionSize { id }),
        Err(PartFault::Memory) => Err(EncodeFault::Memory),
    }
}

/// Writes the section with this number that holds one number, or nothing where there is none.
pub(crate) fn put_number(
    alloc: Global,
    id: u8,
    number: Option<u32>,
    to: &mut Vec<u8>,
) -> Result<(), EncodeFault>
    ensures ok { OnOk result (AddsSection (number ≡ None) (SpellsSome number) id to.old.items to.new.items) }
    ensures long { (n : ℕ) → result ≡ Err (EncodeFault.SectionSize n) → ⊥ }
{
    let Some(number) = number else {
        return Ok(());
    };
    let mut contents = Vec::new(alloc);
    put_u32(alloc, &mut contents, number)?;
    match put_framed(alloc, id, &contents, to) {
        Ok(()) => Ok(()),
        Err(PartFault::TooLong) => unreachable!(),
        Err(PartFault::Memory) => Err(EncodeFault::Memory),
    }
}

impl Part for Custom {
    ghost writable = { λ c. IsShort c.name };

    ghost spells = { SpellsCustom };

    ghost too_long = { IsTooLongCustom };

    fn put(&self, alloc: Global, to: &mut Vec<u8>) -> Result<(), PartFault> {
        let mut contents = Vec::new(alloc);
        put_name(alloc, &mut contents, self.name.as_str())?;
        contents.extend_from_slice(self.bytes.items())?;
        put_framed(alloc, 0, &contents, to)
    }
}

/// How many custom sections of this rank stand first.
fn count_ranked(rank: u8, customs: &[Custom]) -> usize
    ensures { IsRankRun rank customs.now result }
{
    for i in 0..customs.len() {
        if customs[i].rank != rank {
            return i;
        }
    }
    customs.len()
}

/// Writes the first custom sections, those of this rank, and gives the others.
pub(crate) fn put_customs<'a>(
    alloc: Global,
    rank: u8,
    customs: &'a [Custom],
    to: &mut Vec<u8>,
) -> Result<&'a [Custom], EncodeFault>
    requires { All (λ c. IsShort c.name) customs.now }
    ensures ok { IfOk result (λ rest. AddsCustoms rank customs.now rest.now to.old.items to.new.items) }
    ensures long { (n : ℕ) → result ≡ Err (EncodeFault.SectionSize n) → (n ≡ 0) × IsLongCustom rank customs.now }
{
    let count = count_ranked(rank, customs);
    match put_each(alloc, &customs[..count], to) {
        Ok(()) => Ok(&customs[count..]),
        Err(PartFault::TooLong) => Err(EncodeFault::SectionSize { id: 0 }),
        Err(PartFault::Memory) => Err(EncodeFault::Memory),
    }
}
