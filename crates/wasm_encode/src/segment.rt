// Element segments and data segments (sections 5.5.12 and 5.5.14).
ghost use Rattle.std.specs.Prelude.{◌≡◌, OnOk};
ghost use Rattle.spec_reading.specs.spec_binary.Number.{IsShortest, Appends};
ghost use Rattle.spec_reading.specs.spec_binary.Parts.{SpellsElem, SpellsData};
ghost use Rattle.spec_reading.specs.spec_binary.WellFormed.{
  IsFormedConstant,
  IsFormedElemMode,
  IsFormedItems,
  IsFormedElem,
  IsFormedDataMode,
  IsFormedData,
};
ghost use Rattle.wasm_encode.specs.Segments as spec;

use crate::fault::PartFault;
use crate::part::{Part, put_vec};
use crate::types::put_ref_type;
use std::alloc::Global;
use wasm_form::{Data, DataMode, Elem, ElemItems, ElemMode, Expr, ValType};
use wasm_leb::put_u32;

/// Whether the items can stand without a kind or a type: functions, and expressions of type funcref.
fn are_plain(items: &ElemItems) -> bool
    ensures { result ≡ spec.plain_items items.now }
{
    match items {
        ElemItems::Funcs(_) => true,
        ElemItems::Exprs { elem, .. } => matches!(elem, ValType::FuncRef),
    }
}

/// Whether the table and the kind or type of the items are written.
fn names_table(mode: &ElemMode, items: &ElemItems) -> bool
    ensures { result ≡ spec.names_table mode.now items.now }
{
    match mode {
        ElemMode::Active { table, .. } => !(*table == 0 && are_plain(items)),
        ElemMode::Passive => true,
        ElemMode::Declarative => true,
    }
}

/// What the flags say of a segment's mode.
fn mode_flags(named: bool, mode: &ElemMode) -> u32
    ensures { result ≡ spec.mode_flags named mode.now }
{
    match mode {
        ElemMode::Active { .. } => if named { 2 } else { 0 },
        ElemMode::Passive => 1,
        ElemMode::Declarative => 3,
    }
}

/// The flags of an element segment.
fn elem_flags(named: bool, mode: &ElemMode, items: &ElemItems) -> u32
    ensures { result ≡ spec.elem_flags named mode.now items.now }
{
    match items {
        ElemItems::Funcs(_) => mode_flags(named, mode),
        ElemItems::Exprs { .. } => mode_flags(named, mode) + 4,
    }
}

/// Writes where an active segment goes: the number of its table or memory, if that is named, and the offset.
fn put_place(
    alloc: Global,
    named: bool,
    number: u32,
    offset: &Expr,
    to: &mut Vec<u8>,
) -> Result<(), PartFault>
    requires { IsFormedConstant offset.now }
    ensures ok { OnOk result (Appends (IsShortest (spec.IsPlace named number offset.now)) to.old.items to.new.items) }
    ensures long { result ≡ Err PartFault.TooLong → ⊥ }
{
    if !named {
        return offset.put(alloc, to);
    }
    put_u32(alloc, to, number)?;
    offset.put(alloc, to)
}

/// Writes what the flags leave open of a mode.
fn put_elem_mode(
    alloc: Global,
    named: bool,
    mode: &ElemMode,
    to: &mut Vec<u8>,
) -> Result<(), PartFault>
    requires { IsFormedElemMode mode.now }
    ensures ok { OnOk result (Appends (IsShortest (spec.IsElemMode named mode.now)) to.old.items to.new.items) }
    ensures long { result ≡ Err PartFault.TooLong → ⊥ }
{
    match mode {
        ElemMode::Active { table, offset } => put_place(alloc, named, *table, offset, to),
        ElemMode::Passive => Ok(()),
        ElemMode::Declarative => Ok(()),
    }
}

/// Writes the items of an element segment.
fn put_items(
    alloc: Global,
    named: bool,
    items: &ElemItems,
    to: &mut Vec<u8>,
) -> Result<(), PartFault>
    requires { IsFormedItems items.now }
    ensures ok { OnOk result (Appends (IsShortest (spec.IsItems named items.now)) to.old.items to.new.items) }
    ensures long { result ≡ Err PartFault.TooLong → ⊥ }
{
    match items {
        ElemItems::Funcs(funcs) => {
            if named {
                to.push(0x00)?;
                return put_vec(alloc, funcs.items(), to);
            }
            put_vec(alloc, funcs.items(), to)
        }
        ElemItems::Exprs { elem, items } => {
            if named {
                put_ref_type(*elem, to)?;
                return put_vec(alloc, items.items(), to);
            }
            put_vec(alloc, items.items(), to)
        }
    }
}

impl Part for Elem {
    ghost writable = { IsFormedElem };

    ghost spells = { SpellsElem };

    ghost too_long = { λ _. ⊥ };

    fn put(&self, alloc: Global, to: &mut Vec<u8>) -> Result<(), PartFault> {
        let named = names_table(&self.mode, &self.items);
        put_u32(alloc, to, elem_flags(named, &self.mode, &self.items))?;
        put_elem_mode(alloc, named, &self.mode, to)?;
        put_items(alloc, named, &self.items, to)
    }
}

/// Whether the memory of a segment is written.
fn names_memory(mode: &DataMode) -> bool
    ensures { result ≡ spec.names_memory mode.now }
{
    match mode {
        DataMode::Active { memory, .. } => *memory != 0,
        DataMode::Passive => false,
    }
}

/// The flags of a data segment.
fn data_flags(named: bool, mode: &DataMode) -> u32
    ensures { result ≡ spec.data_flags named mode.now }
{
    match mode {
        DataMode::Active { .. } => if named { 2 } else { 0 },
        DataMode::Passive => 1,
    }
}

/// Writes what the flags leave open of a mode.
fn put_data_mode(
    alloc: Global,
    named: bool,
    mode: &DataMode,
    to: &mut Vec<u8>,
) -> Result<(), PartFault>
    requires { IsFormedDataMode mode.now }
    ensures ok { OnOk result (Appends (IsShortest (spec.IsDataMode named mode.now)) to.old.items to.new.items) }
    ensures long { result ≡ Err PartFault.TooLong → ⊥ }
{
    match mode {
        DataMode::Active { memory, offset } => put_place(alloc, named, *memory, offset, to),
        DataMode::Passive => Ok(()),
    }
}

impl Part for Data {
    ghost writable = { IsFormedData };

    ghost spells = { SpellsData };

    ghost too_long = { λ _. ⊥ };

    fn put(&self, alloc: Global, to: &mut Vec<u8>) -> Result<(), PartFault> {
        let named = names_memory(&self.mode);
        put_u32(alloc, to, data_flags(named, &self.mode))?;
        put_data_mode(alloc, named, &self.mode, to)?;
        put_vec(alloc, self.bytes.items(), to)
    }
}
