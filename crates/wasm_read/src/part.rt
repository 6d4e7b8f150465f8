// What the sections hold (WebAssembly Core 2.0, section 5.5).
ghost use Rattle.std.specs.Prelude.{◌≡◌, ℕ, ◌≤◌, ◌<◌, ◌%◌, length, IfOk};
ghost use Rattle.spec_reading.specs.Parts.{
  constant_at,
  described_import_at,
  import_desc_at,
  import_at,
  global_at,
  described_export_at,
  export_desc_at,
  export_at,
  place_at,
  elem_mode_at,
  functions_at,
  expressions_at,
  elem_items_at,
  elem_at,
  data_mode_at,
  data_at,
};
ghost use Rattle.wasm_read.specs.Given.{Gives};

use crate::broken::Break;
use crate::instr::expr_of;
use crate::number::{byte_of, contents_of, name_of, u32_of};
use crate::sequence::Item;
use crate::types::{global_type_of, limits_of, ref_type_of, table_type_of};
use std::alloc::Global;
use wasm_form::{
    Data, DataMode, Elem, ElemItems, ElemMode, Export, ExportDesc, Expr, GlobalDef, Import,
    ImportDesc, List, ValType,
};

// An expression outside a body, in which no block is read (section 3.3.10).
#[tactic(auto, unfolding(spec_reading::specs::Parts::constant_at))]
fn constant_of(alloc: Global, bytes: &[u8]) -> Result<(Expr, &[u8]), Break>
    ensures reads { Gives (λ x. (x.0, x.1.now)) result (constant_at bytes.now) }
    ensures shorter { IfOk result (λ x. length x.1.now ≤ length bytes.now) }
{
    match expr_of(alloc, bytes, 0) {
        Ok(read) => Ok(read),
        Err(Break::TooDeep) => Err(Break::Broken),
        Err(other) => Err(other),
    }
}

impl Item for Expr {
    ghost at = { constant_at };

    fn read(alloc: Global, bytes: &[u8]) -> Result<(Expr, &[u8]), Break> {
        constant_of(alloc, bytes)
    }
}

// What is imported, of this kind.
fn described_import_of(kind: u8, bytes: &[u8]) -> Result<(ImportDesc, &[u8]), Break>
    ensures reads { Gives (λ x. (x.0, x.1.now)) result (described_import_at kind bytes.now) }
    ensures shorter { IfOk result (λ x. length x.1.now ≤ length bytes.now) }
{
    match kind {
        0x00 => {
            let (number, rest) = u32_of(bytes)?;
            Ok((ImportDesc::Func(number), rest))
        }
        0x01 => {
            let (ty, rest) = table_type_of(bytes)?;
            Ok((ImportDesc::Table(ty), rest))
        }
        0x02 => {
            let (limits, rest) = limits_of(bytes)?;
            Ok((ImportDesc::Space(limits), rest))
        }
        0x03 => {
            let (ty, rest) = global_type_of(bytes)?;
            Ok((ImportDesc::Global(ty), rest))
        }
        _ => Err(Break::Broken),
    }
}

#[tactic(auto, unfolding(spec_reading::specs::Parts::import_desc_at))]
fn import_desc_of(bytes: &[u8]) -> Result<(ImportDesc, &[u8]), Break>
    ensures reads { Gives (λ x. (x.0, x.1.now)) result (import_desc_at bytes.now) }
    ensures shorter { IfOk result (λ x. length x.1.now ≤ length bytes.now) }
{
    match bytes {
        [kind, rest @ ..] => described_import_of(*kind, rest),
        _ => Err(Break::Broken),
    }
}

#[tactic(auto, unfolding(spec_reading::specs::Parts::import_at))]
fn import_of(alloc: Global, bytes: &[u8]) -> Result<(Import, &[u8]), Break>
    ensures reads { Gives (λ x. (x.0, x.1.now)) result (import_at bytes.now) }
    ensures shorter { IfOk result (λ x. length x.1.now ≤ length bytes.now) }
{
    let (module, rest) = name_of(alloc, bytes)?;
    let (field, rest) = name_of(alloc, rest)?;
    let (desc, rest) = import_desc_of(rest)?;
    Ok((
        Import {
            module,
            field,
            desc,
        },
        rest,
    ))
}

impl Item for Import {
    ghost at = { import_at };

    fn read(alloc: Global, bytes: &[u8]) -> Result<(Import, &[u8]), Break> {
        import_of(alloc, bytes)
    }
}

#[tactic(auto, unfolding(spec_reading::specs::Parts::global_at))]
fn global_of(alloc: Global, bytes: &[u8]) -> Result<(GlobalDef, &[u8]), Break>
    ensures reads { Gives (λ x. (x.0, x.1.now)) result (global_at bytes.now) }
    ensures shorter { IfOk result (λ x. length x.1.now ≤ length bytes.now) }
{
    let (ty, rest) = global_type_of(bytes)?;
    let (init, rest) = constant_of(alloc, rest)?;
    Ok((GlobalDef { ty, init }, rest))
}

impl Item for GlobalDef {
    ghost at = { global_at };

    fn read(alloc: Global, bytes: &[u8]) -> Result<(GlobalDef, &[u8]), Break> {
        global_of(alloc, bytes)
    }
}

// What is exported, of this kind.
fn described_export_of(kind: u8, bytes: &[u8]) -> Result<(ExportDesc, &[u8]), Break>
    ensures reads { Gives (λ x. (x.0, x.1.now)) result (described_export_at kind bytes.now) }
    ensures shorter { IfOk result (λ x. length x.1.now ≤ length bytes.now) }
{
    let (number, rest) = u32_of(bytes)?;
    match kind {
        0x00 => Ok((ExportDesc::Func(number), rest)),
        0x01 => Ok((ExportDesc::Table(number), rest)),
        0x02 => Ok((ExportDesc::Space(number), rest)),
        0x03 => Ok((ExportDesc::Global(number), rest)),
        _ => Err(Break::Broken),
    }
}

#[tactic(auto, unfolding(spec_reading::specs::Parts::export_desc_at))]
fn export_desc_of(bytes: &[u8]) -> Result<(ExportDesc, &[u8]), Break>
    ensures reads { Gives (λ x. (x.0, x.1.now)) result (export_desc_at bytes.now) }
    ensures shorter { IfOk result (λ x. length x.1.now ≤ length bytes.now) }
{
    match bytes {
        [kind, rest @ ..] => described_export_of(*kind, rest),
        _ => Err(Break::Broken),
    }
}

#[tactic(auto, unfolding(spec_reading::specs::Parts::export_at))]
fn export_of(alloc: Global, bytes: &[u8]) -> Result<(Export, &[u8]), Break>
    ensures reads { Gives (λ x. (x.0, x.1.now)) result (export_at bytes.now) }
    ensures shorter { IfOk result (λ x. length x.1.now ≤ length bytes.now) }
{
    let (name, rest) = name_of(alloc, bytes)?;
    let (desc, rest) = export_desc_of(rest)?;
    Ok((Export { name, desc }, rest))
}

impl Item for Export {
    ghost at = { export_at };

    fn read(alloc: Global, bytes: &[u8]) -> Result<(Export, &[u8]), Break> {
        export_of(alloc, bytes)
    }
}

// A table or a memory, and a constant expression.
fn place_of(alloc: Global, bytes: &[u8]) -> Result<(u32, Expr, &[u8]), Break>
    ensures reads { Gives (λ x. ((x.0, x.1), x.2.now)) result (place_at bytes.now) }
    ensures shorter { IfOk result (λ x. length x.2.now ≤ length bytes.now) }
{
    let (number, rest) = u32_of(bytes)?;
    let (offset, rest) = constant_of(alloc, rest)?;
    Ok((number, offset, rest))
}

// What an element segment does, by the two low bits of its flags.
#[tactic(auto, unfolding(spec_reading::specs::Parts::elem_mode_at))]
fn elem_mode_of(alloc: Global, low: u32, bytes: &[u8]) -> Result<(ElemMode, &[u8]), Break>
    requires { low < 4 }
    ensures reads { Gives (λ x. (x.0, x.1.now)) result (elem_mode_at low bytes.now) }
    ensures shorter { IfOk result (λ x. length x.1.now ≤ length bytes.now) }
{
    match low {
        0 => {
            let (offset, rest) = constant_of(alloc, bytes)?;
            Ok((ElemMode::Active { table: 0, offset }, rest))
        }
        1 => Ok((ElemMode::Passive, bytes)),
        2 => {
            let (table, offset, rest) = place_of(alloc, bytes)?;
            Ok((ElemMode::Active { table, offset }, rest))
        }
        _ => Ok((ElemMode::Declarative, bytes)),
    }
}

fn functions_of(alloc: Global, bytes: &[u8]) -> Result<(ElemItems, &[u8]), Break>
    ensures reads { Gives (λ x. (x.0, x.1.now)) result (functions_at bytes.now) }
    ensures shorter { IfOk result (λ x. length x.1.now ≤ length bytes.now) }
{
    let (functions, rest) = List::<u32>::read(alloc, bytes)?;
    Ok((ElemItems::Funcs(functions), rest))
}

fn expressions_of(alloc: Global, elem: ValType, bytes: &[u8]) -> Result<(ElemItems, &[u8]), Break>
    ensures reads { Gives (λ x. (x.0, x.1.now)) result (expressions_at elem bytes.now) }
    ensures shorter { IfOk result (λ x. length x.1.now ≤ length bytes.now) }
{
    let (items, rest) = List::<Expr>::read(alloc, bytes)?;
    Ok((ElemItems::Exprs { elem, items }, rest))
}

// The items of an element segment, by its flags: where the third bit is set, they are expressions.
#[tactic(auto, unfolding(spec_reading::specs::Parts::elem_items_at))]
fn elem_items_of(alloc: Global, flags: u32, bytes: &[u8]) -> Result<(ElemItems, &[u8]), Break>
    ensures reads { Gives (λ x. (x.0, x.1.now)) result (elem_items_at flags bytes.now) }
    ensures shorter { IfOk result (λ x. length x.1.now ≤ length bytes.now) }
{
    match flags {
        0 => functions_of(alloc, bytes),
        1 | 2 | 3 => {
            let rest = byte_of(0x00, bytes)?;
            functions_of(alloc, rest)
        }
        4 => expressions_of(alloc, ValType::FuncRef, bytes),
        5 | 6 | 7 => {
            let (elem, rest) = ref_type_of(bytes)?;
            expressions_of(alloc, elem, rest)
        }
        _ => Err(Break::Broken),
    }
}

#[tactic(auto, unfolding(spec_reading::specs::Parts::elem_at))]
fn elem_of(alloc: Global, bytes: &[u8]) -> Result<(Elem, &[u8]), Break>
    ensures reads { Gives (λ x. (x.0, x.1.now)) result (elem_at bytes.now) }
    ensures shorter { IfOk result (λ x. length x.1.now ≤ length bytes.now) }
{
    let (flags, rest) = u32_of(bytes)?;
    let (mode, rest) = elem_mode_of(alloc, flags % 4, rest)?;
    let (items, rest) = elem_items_of(alloc, flags, rest)?;
    Ok((Elem { mode, items }, rest))
}

impl Item for Elem {
    ghost at = { elem_at };

    fn read(alloc: Global, bytes: &[u8]) -> Result<(Elem, &[u8]), Break> {
        elem_of(alloc, bytes)
    }
}

// What a data segment does, by its flags.
#[tactic(auto, unfolding(spec_reading::specs::Parts::data_mode_at))]
fn data_mode_of(alloc: Global, flags: u32, bytes: &[u8]) -> Result<(DataMode, &[u8]), Break>
    ensures reads { Gives (λ x. (x.0, x.1.now)) result (data_mode_at flags bytes.now) }
    ensures shorter { IfOk result (λ x. length x.1.now ≤ length bytes.now) }
{
    match flags {
        0 => {
            let (offset, rest) = constant_of(alloc, bytes)?;
            Ok((DataMode::Active { memory: 0, offset }, rest))
        }
        1 => Ok((DataMode::Passive, bytes)),
        2 => {
            let (memory, offset, rest) = place_of(alloc, bytes)?;
            Ok((DataMode::Active { memory, offset }, rest))
        }
        _ => Err(Break::Broken),
    }
}

#[tactic(auto, unfolding(spec_reading::specs::Parts::data_at))]
fn data_of(alloc: Global, bytes: &[u8]) -> Result<(Data, &[u8]), Break>
    ensures reads { Gives (λ x. (x.0, x.1.now)) result (data_at bytes.now) }
    ensures shorter { IfOk result (λ x. length x.1.now ≤ length bytes.now) }
{
    let (flags, rest) = u32_of(bytes)?;
    let (mode, rest) = data_mode_of(alloc, flags, rest)?;
    let (bytes, rest) = contents_of(rest)?;
    let bytes = List::of(bytes.to_vec(alloc)?);
    Ok((Data { mode, bytes }, rest))
}

impl Item for Data {
    ghost at = { data_at };

    fn read(alloc: Global, bytes: &[u8]) -> Result<(Data, &[u8]), Break> {
        data_of(alloc, bytes)
    }
}
