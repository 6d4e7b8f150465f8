// Types (WebAssembly Core 2.0, section 5.3).
ghost use Rattle.std.specs.Prelude.{◌≡◌, ℕ, ◌≤◌, length, IfOk};
ghost use Rattle.spec_reading.specs.Types.{
  ref_type_at,
  val_type_at,
  signature_at,
  func_type_at,
  bounds_at,
  limits_at,
  table_type_at,
  mutability_at,
  global_type_at,
};
ghost use Rattle.wasm_read.specs.Given.{Gives};

use crate::broken::Break;
use crate::number::u32_of;
use crate::sequence::Item;
use std::alloc::Global;
use wasm_form::{FuncType, GlobalType, Limits, List, TableType, ValType};

#[tactic(auto, unfolding(spec_reading::specs::Types::ref_type_at))]
pub(crate) fn ref_type_of(bytes: &[u8]) -> Result<(ValType, &[u8]), Break>
    ensures reads { Gives (λ x. (x.0, x.1.now)) result (ref_type_at bytes.now) }
    ensures shorter { IfOk result (λ x. length x.1.now ≤ length bytes.now) }
{
    match bytes {
        [0x70, rest @ ..] => Ok((ValType::FuncRef, rest)),
        [0x6F, rest @ ..] => Ok((ValType::ExternRef, rest)),
        _ => Err(Break::Broken),
    }
}

#[tactic(auto, unfolding(spec_reading::specs::Types::val_type_at))]
pub fn val_type_of(bytes: &[u8]) -> Result<(ValType, &[u8]), Break>
    ensures reads { Gives (λ x. (x.0, x.1.now)) result (val_type_at bytes.now) }
    ensures shorter { IfOk result (λ x. length x.1.now ≤ length bytes.now) }
{
    match bytes {
        [0x7F, rest @ ..] => Ok((ValType::I32, rest)),
        [0x7E, rest @ ..] => Ok((ValType::I64, rest)),
        [0x7D, rest @ ..] => Ok((ValType::F32, rest)),
        [0x7C, rest @ ..] => Ok((ValType::F64, rest)),
        [0x70, rest @ ..] => Ok((ValType::FuncRef, rest)),
        [0x6F, rest @ ..] => Ok((ValType::ExternRef, rest)),
        _ => Err(Break::Broken),
    }
}

impl Item for ValType {
    ghost at = { val_type_at };

    fn read(_alloc: Global, bytes: &[u8]) -> Result<(ValType, &[u8]), Break> {
        val_type_of(bytes)
    }
}

// The parameters and the results.
fn signature_of(alloc: Global, bytes: &[u8]) -> Result<(FuncType, &[u8]), Break>
    ensures reads { Gives (λ x. (x.0, x.1.now)) result (signature_at bytes.now) }
    ensures shorter { IfOk result (λ x. length x.1.now ≤ length bytes.now) }
{
    let (params, rest) = List::<ValType>::read(alloc, bytes)?;
    let (results, rest) = List::<ValType>::read(alloc, rest)?;
    Ok((FuncType { params, results }, rest))
}

#[tactic(auto, unfolding(spec_reading::specs::Types::func_type_at))]
fn func_type_of(alloc: Global, bytes: &[u8]) -> Result<(FuncType, &[u8]), Break>
    ensures reads { Gives (λ x. (x.0, x.1.now)) result (func_type_at bytes.now) }
    ensures shorter { IfOk result (λ x. length x.1.now ≤ length bytes.now) }
{
    match bytes {
        [0x60, rest @ ..] => signature_of(alloc, rest),
        _ => Err(Break::Broken),
    }
}

impl Item for FuncType {
    ghost at = { func_type_at };

    fn read(alloc: Global, bytes: &[u8]) -> Result<(FuncType, &[u8]), Break> {
        func_type_of(alloc, bytes)
    }
}

// A minimum and a maximum.
fn bounds_of(bytes: &[u8]) -> Result<(Limits, &[u8]), Break>
    ensures reads { Gives (λ x. (x.0, x.1.now)) result (bounds_at bytes.now) }
    ensures shorter { IfOk result (λ x. length x.1.now ≤ length bytes.now) }
{
    let (min, rest) = u32_of(bytes)?;
    let (max, rest) = u32_of(rest)?;
    Ok((
        Limits {
            min,
            max: Some(max),
        },
        rest,
    ))
}

#[tactic(auto, unfolding(spec_reading::specs::Types::limits_at))]
pub(crate) fn limits_of(bytes: &[u8]) -> Result<(Limits, &[u8]), Break>
    ensures reads { Gives (λ x. (x.0, x.1.now)) result (limits_at bytes.now) }
    ensures shorter { IfOk result (λ x. length x.1.now ≤ length bytes.now) }
{
    match bytes {
        [0x00, rest @ ..] => {
            let (min, rest) = u32_of(rest)?;
            Ok((Limits { min, max: None }, rest))
        }
        [0x01, rest @ ..] => bounds_of(rest),
        _ => Err(Break::Broken),
    }
}

impl Item for Limits {
    ghost at = { limits_at };

    fn read(_alloc: Global, bytes: &[u8]) -> Result<(Limits, &[u8]), Break> {
        limits_of(bytes)
    }
}

#[tactic(auto, unfolding(spec_reading::specs::Types::table_type_at))]
pub(crate) fn table_type_of(bytes: &[u8]) -> Result<(TableType, &[u8]), Break>
    ensures reads { Gives (λ x. (x.0, x.1.now)) result (table_type_at bytes.now) }
    ensures shorter { IfOk result (λ x. length x.1.now ≤ length bytes.now) }
{
    let (elem, rest) = ref_type_of(bytes)?;
    let (limits, rest) = limits_of(rest)?;
    Ok((TableType { elem, limits }, rest))
}

impl Item for TableType {
    ghost at = { table_type_at };

    fn read(_alloc: Global, bytes: &[u8]) -> Result<(TableType, &[u8]), Break> {
        table_type_of(bytes)
    }
}

#[tactic(auto, unfolding(spec_reading::specs::Types::mutability_at))]
fn mutability_of(bytes: &[u8]) -> Result<(bool, &[u8]), Break>
    ensures reads { Gives (λ x. (x.0, x.1.now)) result (mutability_at bytes.now) }
    ensures shorter { IfOk result (λ x. length x.1.now ≤ length bytes.now) }
{
    match bytes {
        [0x00, rest @ ..] => Ok((false, rest)),
        [0x01, rest @ ..] => Ok((true, rest)),
        _ => Err(Break::Broken),
    }
}

#[tactic(auto, unfolding(spec_reading::specs::Types::global_type_at))]
pub(crate) fn global_type_of(bytes: &[u8]) -> Result<(GlobalType, &[u8]), Break>
    ensures reads { Gives (λ x. (x.0, x.1.now)) result (global_type_at bytes.now) }
    ensures shorter { IfOk result (λ x. length x.1.now ≤ length bytes.now) }
{
    let (value, rest) = val_type_of(bytes)?;
    let (mutable, rest) = mutability_of(rest)?;
    Ok((GlobalType { value, mutable }, rest))
}
