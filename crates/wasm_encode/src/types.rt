// Types (section 5.3).
ghost use Rattle.std.specs.Prelude.{◌≡◌, List as Listing, [], ◌∷◌, OnOk, IsTrue};
ghost use Rattle.spec_reading.specs.spec_binary.Number.{IsShortest, Appends};
ghost use Rattle.spec_reading.specs.spec_binary.Types.{
  SpellsValType,
  SpellsRefType,
  SpellsFuncType,
  SpellsLimits,
  SpellsTableType,
  SpellsMutability,
  SpellsGlobalType,
};
ghost use Rattle.spec_reading.specs.spec_binary.WellFormed.{is_reference_type, IsFormedType, IsFormedTable};

use crate::fault::PartFault;
use crate::part::{Part, put_numbered, put_vec};
use std::alloc::Global;
use wasm_form::{FuncType, GlobalType, Limits, Memory, TableType, ValType};
use wasm_leb::put_u32;

/// The byte of a type.
pub(crate) fn type_byte(ty: ValType) -> u8
    ensures { SpellsValType ty (result ∷ []) }
{
    match ty {
        ValType::I32 => 0x7F,
        ValType::I64 => 0x7E,
        ValType::F32 => 0x7D,
        ValType::F64 => 0x7C,
        ValType::FuncRef => 0x70,
        ValType::ExternRef => 0x6F,
    }
}

/// Writes a reference type.
pub(crate) fn put_ref_type(ty: ValType, to: &mut Vec<u8>) -> Result<(), Memory>
    requires { IsTrue (is_reference_type ty) }
    ensures { OnOk result (Appends (IsShortest (SpellsRefType ty)) to.old.items to.new.items) }
{
    to.push(type_byte(ty))?;
    Ok(())
}

/// Writes a size range.
fn put_limits(alloc: Global, limits: &Limits, to: &mut Vec<u8>) -> Result<(), Memory>
    ensures { OnOk result (Appends (IsShortest (SpellsLimits limits.now)) to.old.items to.new.items) }
{
    match limits.max {
        None => put_numbered(alloc, 0x00, limits.min, to),
        Some(max) => {
            put_numbered(alloc, 0x01, limits.min, to)?;
            put_u32(alloc, to, max)
        }
    }
}

/// The byte that says whether a global can be written.
fn mutability(mutable: bool) -> u8
    ensures { SpellsMutability mutable (result ∷ []) }
{
    if mutable { 0x01 } else { 0x00 }
}

impl Part for ValType {
    ghost writable = { λ _. Unit {0} };

    ghost spells = { SpellsValType };

    ghost too_long = { λ _. ⊥ };

    fn put(&self, _: Global, to: &mut Vec<u8>) -> Result<(), PartFault> {
        to.push(type_byte(*self))?;
        Ok(())
    }
}

impl Part for FuncType {
    ghost writable = { IsFormedType };

    ghost spells = { SpellsFuncType };

    ghost too_long = { λ _. ⊥ };

    fn put(&self, alloc: Global, to: &mut Vec<u8>) -> Result<(), PartFault> {
        to.push(0x60)?;
        put_vec(alloc, self.params.items(), to)?;
        put_vec(alloc, self.results.items(), to)
    }
}

impl Part for Limits {
    ghost writable = { λ _. Unit {0} };

    ghost spells = { SpellsLimits };

    ghost too_long = { λ _. ⊥ };

    fn put(&self, alloc: Global, to: &mut Vec<u8>) -> Result<(), PartFault> {
        put_limits(alloc, self, to)?;
        Ok(())
    }
}

impl Part for TableType {
    ghost writable = { IsFormedTable };

    ghost spells = { SpellsTableType };

    ghost too_long = { λ _. ⊥ };

    fn put(&self, alloc: Global, to: &mut Vec<u8>) -> Result<(), PartFault> {
        put_ref_type(self.elem, to)?;
        put_limits(alloc, &self.limits, to)?;
        Ok(())
    }
}

impl Part for GlobalType {
    ghost writable = { λ _. Unit {0} };

    ghost spells = { SpellsGlobalType };

    ghost too_long = { λ _. ⊥ };

    fn put(&self, _: Global, to: &mut Vec<u8>) -> Result<(), PartFault> {
        to.push(type_byte(self.value))?;
        to.push(mutability(self.mutable))?;
        Ok(())
    }
}
