// Numbers and names (WebAssembly Core 2.0, sections 5.1 and 5.2). Each reader takes what stands at the front of the
// bytes, and gives with it the bytes that follow.
ghost use Rattle.std.specs.Prelude.{◌≡◌, ℕ, ◌≤◌, length, IfOk, string_bytes};
ghost use Rattle.spec_binary.specs.Number.{IsSigned};
ghost use Rattle.spec_reading.specs.Values.{number_at, signed_at, bits_at, byte_at, cut_at, name_at};
ghost use Rattle.wasm_read.specs.Given.{Gives};

use crate::broken::Break;
use std::alloc::Global;
use wasm_form::Text;
use wasm_leb::{read_s32, read_s33, read_s64, read_u32};

/// An unsigned number of 32 bits.
pub fn u32_of(bytes: &[u8]) -> Result<(u32, &[u8]), Break>
    ensures reads { Gives (λ x. (x.0, x.1.now)) result (number_at 32 bytes.now) }
    ensures shorter { IfOk result (λ x. length x.1.now ≤ length bytes.now) }
{
    // most numbers have one byte
    if let [b, rest @ ..] = bytes
        && *b < 0x80
    {
        return Ok((u32::from(*b), rest));
    }
    match read_u32(bytes, 0) {
        Some((n, end)) => Ok((n, &bytes[end..])),
        None => Err(Break::Broken),
    }
}

/// A signed number of 32 bits.
pub fn s32_of(bytes: &[u8]) -> Result<(i32, &[u8]), Break>
    ensures reads { Gives (λ x. (x.0, x.1.now)) result (signed_at 32 bytes.now) }
    ensures shorter { IfOk result (λ x. length x.1.now ≤ length bytes.now) }
{
    // most numbers have one byte
    if let [b, rest @ ..] = bytes
        && *b < 0x40
    {
        return Ok((i32::from(*b), rest));
    }
    match read_s32(bytes, 0) {
        Some((n, end)) => Ok((n, &bytes[end..])),
        None => Err(Break::Broken),
    }
}

/// A signed number of 33 bits.
pub fn s33_of(bytes: &[u8]) -> Result<(i64, &[u8]), Break>
    ensures reads { Gives (λ x. (x.0, x.1.now)) result (signed_at 33 bytes.now) }
    ensures range { IfOk result (λ x. IsSigned 33 x.0) }
    ensures shorter { IfOk result (λ x. length x.1.now ≤ length bytes.now) }
{
    match read_s33(bytes, 0) {
        Some((n, end)) => Ok((n, &bytes[end..])),
        None => Err(Break::Broken),
    }
}

/// A signed number of 64 bits.
pub fn s64_of(bytes: &[u8]) -> Result<(i64, &[u8]), Break>
    ensures reads { Gives (λ x. (x.0, x.1.now)) result (signed_at 64 bytes.now) }
    ensures shorter { IfOk result (λ x. length x.1.now ≤ length bytes.now) }
{
    // most numbers have one byte
    if let [b, rest @ ..] = bytes
        && *b < 0x40
    {
        return Ok((i64::from(*b), rest));
    }
    match read_s64(bytes, 0) {
        Some((n, end)) => Ok((n, &bytes[end..])),
        None => Err(Break::Broken),
    }
}

/// The bits of a number in four bytes.
pub fn bits_of_four(bytes: &[u8]) -> Result<(u32, &[u8]), Break>
    ensures reads { Gives (λ x. (x.0, x.1.now)) result (bits_at 4 bytes.now) }
    ensures shorter { IfOk result (λ x. length x.1.now ≤ length bytes.now) }
{
    match bytes {
        [a, b, c, d, rest @ ..] => Ok((u32::from_le_bytes([*a, *b, *c, *d]), rest)),
        _ => Err(Break::Broken),
    }
}

/// The bits of a number in eight bytes.
pub fn bits_of_eight(bytes: &[u8]) -> Result<(u64, &[u8]), Break>
    ensures reads { Gives (λ x. (x.0, x.1.now)) result (bits_at 8 bytes.now) }
    ensures shorter { IfOk result (λ x. length x.1.now ≤ length bytes.now) }
{
    match bytes {
        [a, b, c, d, e, f, g, h, rest @ ..] => {
            let number = u64::from_le_bytes([*a, *b, *c, *d, *e, *f, *g, *h]);
            Ok((number, rest))
        }
        _ => Err(Break::Broken),
    }
}

/// This byte.
#[tactic(auto, unfolding(spec_reading::specs::Values::byte_at))]
pub fn byte_of(wanted: u8, bytes: &[u8]) -> Result<&[u8], Break>
    ensures reads { Gives (λ x. (tt, x.now)) result (byte_at wanted bytes.now) }
    ensures shorter { IfOk result (λ x. length x.now ≤ length bytes.now) }
{
    match bytes {
        [b, rest @ ..] if *b == wanted => Ok(rest),
        _ => Err(Break::Broken),
    }
}

/// A number, and so many bytes.
#[tactic(auto, unfolding(spec_reading::specs::Values::cut_at))]
pub fn contents_of(bytes: &[u8]) -> Result<(&[u8], &[u8]), Break>
    ensures reads { Gives (λ x. (x.0.now, x.1.now)) result (cut_at bytes.now) }
    ensures shorter { IfOk result (λ x. length x.1.now ≤ length bytes.now) }
{
    let (size, rest) = u32_of(bytes)?;
    let size = size as usize;
    if rest.len() < size {
        return Err(Break::Broken);
    }
    Ok((&rest[..size], &rest[size..]))
}

/// A name.
#[tactic(auto, unfolding(spec_reading::specs::Values::name_at))]
pub fn name_of(alloc: Global, bytes: &[u8]) -> Result<(Text, &[u8]), Break>
    ensures reads { Gives (λ x. (x.0, x.1.now)) result (name_at bytes.now) }
    ensures shorter { IfOk result (λ x. length x.1.now ≤ length bytes.now) }
{
    let (name, rest) = contents_of(bytes)?;
    match str::from_utf8(name) {
        Ok(text) => Ok((Text::of(String::from_str(alloc, text)?), rest)),
        Err(_) => Err(Break::Broken),
    }
}
