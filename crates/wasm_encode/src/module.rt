// Modules (section 5.5.16).
ghost use Rattle.std.specs.Prelude.{◌≡◌, ℕ, suc, ◌+◌, ◌*◌, ◌<◌, ◌≤◌, ◌^◌, ◌⊎◌, length, All, OnOk, IfOk};
ghost use Rattle.spec_reading.specs.spec_binary.Number.{IsShortest};
ghost use Rattle.spec_reading.specs.spec_binary.Modules.{header, SpellsModule};
ghost use Rattle.spec_reading.specs.spec_binary.WellFormed.{IsWellFormed};
ghost use Rattle.wasm_encode.specs.SectionSizes.{IsFirstTooLong};
ghost use Rattle.wasm_encode.specs.Begun.{IsBegun};
ghost use Rattle.wasm_encode.specs.Weight.{weight};
ghost use Rattle.wasm_encode.specs.ListSections.{IsListStep};

use crate::fault::EncodeFault;
use crate::part::Part;
use crate::section::{put_customs, put_number, put_section};
use std::alloc::Global;
use wasm_form::{Custom, List, Module};

/// The magic bytes and version 1.
const HEADER: [u8; 8] = [0x00, 0x61, 0x73, 0x6D, 0x01, 0x00, 0x00, 0x00];

/// Writes the custom sections before all others.
fn put_first_customs<'a>(
    alloc: Global,
    m: &'a Module,
    to: &mut Vec<u8>,
) -> Result<&'a [Custom], EncodeFault>
    requires formed { IsWellFormed m.now }
    requires begun { to.old.items ≡ header }
    ensures ok { IfOk result (λ rest. IsBegun m.now 0 1 rest.now to.new.items) }
    ensures long { (id : ℕ) → result ≡ Err (EncodeFault.SectionSize id) → IsFirstTooLong m.now id }
{
    put_customs(alloc, 0, m.customs.items(), to)
}

/// Writes the section with this number that holds a list of the module, behind those of a rank, and the custom sections behind it.
fn put_listed<'a, T: Part>(
    alloc: Global,
    _of: &Module,
    rank: u8,
    id: u8,
    items: &List<T>,
    customs: &'a [Custom],
    to: &mut Vec<u8>,
) -> Result<&'a [Custom], EncodeFault>
    requires rank { rank < 12 }
    requires short { length items.now < 2 ^ 32 }
    requires writable { All T.writable items.now }
    requires step { IsListStep _of.now rank id T.spells T.too_long items.now }
    requires begun { IsBegun _of.now rank (suc rank) customs.now to.old.items }
    ensures ok { IfOk result (λ rest. IsBegun _of.now (suc rank) (suc (suc rank)) rest.now to.new.items) }
    ensures long { (n : ℕ) → result ≡ Err (EncodeFault.SectionSize n) → IsFirstTooLong _of.now n }
{
    put_section(alloc, id, items.items(), to)?;
    put_customs(alloc, rank + 1, customs, to)
}

/// Writes the start section.
fn put_start(
    alloc: Global,
    m: &Module,
    customs: &[Custom],
    to: &mut Vec<u8>,
) -> Result<(), EncodeFault>
    requires begun { IsBegun m.now 7 8 customs.now to.old.items }
    ensures ok { OnOk result (IsBegun m.now 8 9 customs.now to.new.items) }
    ensures long { (id : ℕ) → result ≡ Err (EncodeFault.SectionSize id) → ⊥ }
{
    put_number(alloc, 8, m.start, to)
}

/// Writes the data count section.
fn put_data_count(
    alloc: Global,
    m: &Module,
    customs: &[Custom],
    to: &mut Vec<u8>,
) -> Result<(), EncodeFault>
    requires begun { IsBegun m.now 9 10 customs.now to.old.items }
    ensures ok { OnOk result (IsBegun m.now 10 11 customs.now to.new.items) }
    ensures long { (id : ℕ) → result ≡ Err (EncodeFault.SectionSize id) → ⊥ }
{
    put_number(alloc, 12, m.data_count, to)
}

/// Writes the sections up to the exports.
fn put_front<'a>(
    alloc: Global,
    m: &'a Module,
    to: &mut Vec<u8>,
) -> Result<&'a [Custom], EncodeFault>
    requires formed { IsWellFormed m.now }
    requires begun { to.old.items ≡ header }
    ensures ok { IfOk result (λ rest. IsBegun m.now 7 8 rest.now to.new.items) }
    ensures long { (id : ℕ) → result ≡ Err (EncodeFault.SectionSize id) → IsFirstTooLong m.now id }
{
    let customs = put_first_customs(alloc, m, to)?;
    let customs = put_listed(alloc, m, 0, 1, &m.types, customs, to)?;
    let customs = put_listed(alloc, m, 1, 2, &m.imports, customs, to)?;
    let customs = put_listed(alloc, m, 2, 3, &m.funcs, customs, to)?;
    let customs = put_listed(alloc, m, 3, 4, &m.tables, customs, to)?;
    let customs = put_listed(alloc, m, 4, 5, &m.memories, customs, to)?;
    let customs = put_listed(alloc, m, 5, 6, &m.globals, customs, to)?;
    put_listed(alloc, m, 6, 7, &m.exports, customs, to)
}

/// Writes the other sections.
fn put_back(
    alloc: Global,
    m: &Module,
    customs: &[Custom],
    to: &mut Vec<u8>,
) -> Result<(), EncodeFault>
    requires formed { IsWellFormed m.now }
    requires begun { IsBegun m.now 7 8 customs.now to.old.items }
    ensures ok { OnOk result (IsShortest (SpellsModule m.now) to.new.items) }
    ensures size { OnOk result (length to.new.items ≤ 16 * weight m.now + 256) }
    ensures fit { OnOk result ((id : ℕ) → IsFirstTooLong m.now id → ⊥) }
    ensures long { (id : ℕ) → result ≡ Err (EncodeFault.SectionSize id) → IsFirstTooLong m.now id }
{
    put_start(alloc, m, customs, to)?;
    let customs = put_listed(alloc, m, 8, 9, &m.elems, customs, to)?;
    put_data_count(alloc, m, customs, to)?;
    let customs = put_listed(alloc, m, 10, 10, &m.codes, customs, to)?;
    put_listed(alloc, m, 11, 11, &m.datas, customs, to)?;
    Ok(())
}

/// The sections of a module.
fn put_sections(alloc: Global, m: &Module, to: &mut Vec<u8>) -> Result<(), EncodeFault>
    requires formed { IsWellFormed m.now }
    requires begun { to.old.items ≡ header }
    ensures ok { OnOk result (IsShortest (SpellsModule m.now) to.new.items) }
    ensures size { OnOk result (length to.new.items ≤ 16 * weight m.now + 256) }
    ensures fit { OnOk result ((id : ℕ) → IsFirstTooLong m.now id → ⊥) }
    ensures long { (id : ℕ) → result ≡ Err (EncodeFault.SectionSize id) → IsFirstTooLong m.now id }
{
    let customs = put_front(alloc, m, to)?;
    put_back(alloc, m, customs, to)
}

/// The bytes of a module (section 5.5.16), with every number in its shortest form, the least flags, and without empty sections: no bytes
/// that spell the module are shorter.
///
/// `SectionSize` comes where the contents of a section take 2^32 bytes or more, however they are spelled, with the
/// number of the first such section; `Memory` where no memory could be had.
pub fn encode(alloc: Global, m: &Module) -> Result<Vec<u8>, EncodeFault>
    requires { IsWellFormed m.now }
    ensures spelled { IfOk result (λ bytes. SpellsModule m.now bytes.items) }
    ensures shortest { IfOk result (λ bytes. IsShortest (SpellsModule m.now) bytes.items) }
    ensures size { IfOk result (λ bytes. length bytes.items ≤ 16 * weight m.now + 256) }
    ensures too_long { (id : ℕ) → result ≡ Err (EncodeFault.SectionSize id) → IsFirstTooLong m.now id }
    ensures only_too_long { (id : ℕ) → IsFirstTooLong m.now id → (result ≡ Err (EncodeFault.SectionSize id)) ⊎ (result ≡ Err EncodeFault.Memory) }
{
    let mut bytes = Vec::from_slice(alloc, &HEADER)?;
    put_sections(alloc, m, &mut bytes)?;
    Ok(bytes)
}
