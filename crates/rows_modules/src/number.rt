// Numbers: what operators give, what bytes spell at a place, and how numbers and names are spelled.
ghost use Rattle.std.specs.Prelude.{◌≤◌, ◌<◌, length};

use crate::code::hex;
use rows_texts::Refused;
use std::alloc::{AllocError, Global};
use std::fmt::Display;
use wasm_form::Trap;
use wasm_leb::{
    put_name, put_s32, put_s33, put_s64, put_u32, read_name, read_s32, read_s33, read_s64, read_u32,
};
use wasm_num::{binary, compare, convert, unary};

// What an operator gives, a comparison 0 or 1. None where it isn't one, or an operand doesn't fit it.
fn given(op: u8, a: u64, b: u64) -> Option<Result<u64, Trap>> {
    let small = a < 1 << 32 && b < 1 << 32;
    match op {
        0x45 if a < 1 << 32 => Some(Ok(u64::from(compare(op, a, b)))),
        0x46..=0x4F if small => Some(Ok(u64::from(compare(op, a, b)))),
        0x50..=0x5A => Some(Ok(u64::from(compare(op, a, b)))),
        0x67..=0x69 if small => Some(Ok(unary(op, a))),
        0x79..=0x7B => Some(Ok(unary(op, a))),
        0x6A..=0x78 if small => Some(binary(op, a, b)),
        0x7C..=0x8A => Some(binary(op, a, b)),
        0xAC..=0xAD | 0xC0..=0xC1 if small => Some(Ok(convert(op, a))),
        0xA7 | 0xC2..=0xC4 => Some(Ok(convert(op, a))),
        _ => None,
    }
}

// What the operator gives at operands in hexadecimal, of which the second may be missing.
fn given_by(op: u8, operands: &str) -> Option<Result<u64, Trap>> {
    let (a, b) = operands.split_once(' ').unwrap_or((operands, "0"));
    let a = u64::from_str_radix(a, 16).ok()?;
    given(op, a, u64::from_str_radix(b, 16).ok()?)
}

/// What the operator of an opcode gives at operands, in hexadecimal, or how it traps.
pub fn computed(alloc: Global, opcode: &[u8], operands: &str) -> Result<String, AllocError> {
    let given = match opcode {
        [op] => given_by(*op, operands),
        _ => None,
    };
    match given {
        Some(Ok(number)) => format!(in alloc; "{number:x}"),
        Some(Err(trap)) => format!(in alloc; "{trap:?}"),
        None => String::from_str(alloc, "no operator of such operands"),
    }
}

// What was read, and the place behind it.
fn spelled<T: Display + Drop>(
    alloc: Global,
    read: Option<(T, usize)>,
) -> Result<String, AllocError> {
    match read {
        Some((value, end)) => format!(in alloc; "{value} in {end}"),
        None => String::from_str(alloc, "none"),
    }
}

// The number that bytes spell at a place, or where the bytes of a name begin, and the place behind it.
fn read_at(alloc: Global, verb: &str, bytes: &[u8], at: usize) -> Result<String, AllocError>
    requires { at ≤ length bytes.now }
{
    match verb {
        "read_u32" => spelled(alloc, read_u32(bytes, at)),
        "read_s32" => spelled(alloc, read_s32(bytes, at)),
        "read_s33" => spelled(alloc, read_s33(bytes, at)),
        "read_s64" => spelled(alloc, read_s64(bytes, at)),
        _ => spelled(alloc, read_name(bytes, at)),
    }
}

/// What bytes spell at their start; of a verb that ends in `_from`, at the place that the first byte says of those behind it.
pub fn answer(alloc: Global, verb: &str, bytes: &[u8]) -> Result<String, AllocError> {
    match (verb.strip_suffix("_from"), bytes.split_first()) {
        (Some(verb), Some((at, rest))) if usize::from(*at) <= rest.len() => {
            read_at(alloc, verb, rest, usize::from(*at))
        }
        _ => read_at(alloc, verb, bytes, 0),
    }
}

// Appends a number of the 33 bits that a block type has.
fn put_block_type(alloc: Global, part: &str, to: &mut Vec<u8>) -> Result<(), Refused> {
    let number = part.parse::<i64>()?;
    if number < -4_294_967_296 || number >= 4_294_967_296 {
        return Err(Refused::Text);
    }
    Ok(put_s33(alloc, to, number)?)
}

// Appends a name.
fn put_name_of(alloc: Global, part: &str, to: &mut Vec<u8>) -> Result<(), Refused> {
    if part.len() >= 4_294_967_296 {
        return Err(Refused::Text);
    }
    Ok(put_name(alloc, to, part)?)
}

// Appends a number or a name.
fn put(alloc: Global, verb: &str, part: &str, to: &mut Vec<u8>) -> Result<(), Refused> {
    match verb {
        "put_u32" => Ok(put_u32(alloc, to, part.parse::<u32>()?)?),
        "put_s32" => Ok(put_s32(alloc, to, part.parse::<i32>()?)?),
        "put_s33" => put_block_type(alloc, part, to),
        "put_s64" => Ok(put_s64(alloc, to, part.parse::<i64>()?)?),
        "put_name" => put_name_of(alloc, part, to),
        _ => Err(Refused::Text),
    }
}

/// The bytes that spell a number or a name.
pub fn written(alloc: Global, verb: &str, part: &str) -> Result<String, Refused> {
    let mut bytes = Vec::new(alloc);
    put(alloc, verb, part, &mut bytes)?;
    Ok(hex(alloc, &bytes)?)
}
