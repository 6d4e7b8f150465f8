//! The integer operators of the machine (WebAssembly Core 2.0, sections 4.3.2 and 4.3.4), by their opcodes (section 5.4.7).
//!
//! A number of 32 bits stands in the low half of a `u64`, and the high half is 0.
#![tactic(auto)]

mod narrow;
mod wide;

ghost use Rattle.std.specs.Prelude.{◌≡◌, ◌<◌, ◌^◌, IsSome, IfSome};
ghost use Rattle.spec_runtime.specs.Numerics.{
  unary_of,
  unary as unary_result,
  binary_of,
  binary as binary_outcome,
  compare_of,
  compare as compare_result,
  convert_of,
  convert as convert_result,
  converts_from,
  iextend_s,
};
ghost use Rattle.wasm_num.specs.Answers.{answer, FitsWidth, SecondFits};

use spec_runtime::wasm_form::Trap;

/// Counts zeros or ones: clz, ctz and popcnt.
#[inline(always)]
pub fn unary(op: u8, a: u64) -> u64
    requires operator { IsSome (unary_of op) }
    requires operand { IfSome (unary_of op) (λ o. FitsWidth o.0 a) }
    ensures { IfSome (unary_of op) (λ o. result ≡ unary_result o.0 o.1 a) }
{
    if op <= 0x69 {
        u64::from(narrow::unary(op, a as u32))
    } else {
        wide::unary(op - 0x12, a)
    }
}

/// Computes with two numbers: arithmetic, bits, shifts and rotations. Division and remainder trap at a divisor of 0,
/// as `DivideByZero`, and signed division where the quotient doesn't fit, as `Overflow`.
#[inline(always)]
pub fn binary(op: u8, a: u64, b: u64) -> Result<u64, Trap>
    requires operator { IsSome (binary_of op) }
    requires first { IfSome (binary_of op) (λ o. FitsWidth o.0 a) }
    requires second { IfSome (binary_of op) (λ o. FitsWidth o.0 b) }
    ensures { IfSome (binary_of op) (λ o. result ≡ answer (binary_outcome o.0 o.1 a b)) }
{
    if op <= 0x78 {
        match narrow::binary(op, a as u32, b as u32) {
            Ok(n) => Ok(u64::from(n)),
            Err(trap) => Err(trap),
        }
    } else {
        wide::binary(op - 0x12, a, b)
    }
}

/// Compares two numbers, or one with 0: eqz doesn't look at the second operand.
#[inline(always)]
pub fn compare(op: u8, a: u64, b: u64) -> bool
    requires operator { IsSome (compare_of op) }
    requires first { IfSome (compare_of op) (λ o. FitsWidth o.0 a) }
    requires second { IfSome (compare_of op) (λ o. SecondFits o.0 o.1 b) }
    ensures { IfSome (compare_of op) (λ o. result ≡ compare_result o.0 o.1 a b) }
{
    if op == 0x45 {
        a == 0
    } else if op <= 0x4F {
        narrow::compare(op, a as u32, b as u32)
    } else {
        wide::compare(op - 0xB, a, b)
    }
}

/// Converts a number: wrap_i64, extend_i32_s and extend_i32_u, and the extensions of a number's low bits.
#[inline(always)]
pub fn convert(op: u8, a: u64) -> u64
    requires operator { IsSome (convert_of op) }
    requires operand { IfSome (convert_of op) (λ o. FitsWidth (converts_from o) a) }
    ensures { IfSome (convert_of op) (λ o. result ≡ convert_result o a) }
{
    match op {
        0xA7 => a % (1 << 32),
        0xAD => a,
        0xC0 => u64::from(narrow_byte(a)),
        0xC1 => u64::from(narrow_half(a)),
        0xC2 => wide_byte(a),
        0xC3 => wide_half(a),
        _ => wide_word(a),
    }
}

// The low 8 bits as a signed number of 32 bits.
fn narrow_byte(a: u64) -> u32
    ensures { result ≡ iextend_s 8 32 a }
{
    i32::from(((a % 256) as u8).cast_signed()).cast_unsigned()
}

// The low 16 bits as a signed number of 32 bits.
fn narrow_half(a: u64) -> u32
    ensures { result ≡ iextend_s 16 32 a }
{
    i32::from(((a % (1 << 16)) as u16).cast_signed()).cast_unsigned()
}

// The low 8 bits as a signed number of 64 bits.
fn wide_byte(a: u64) -> u64
    ensures { result ≡ iextend_s 8 64 a }
{
    i64::from(((a % 256) as u8).cast_signed()).cast_unsigned()
}

// The low 16 bits as a signed number of 64 bits.
fn wide_half(a: u64) -> u64
    ensures { result ≡ iextend_s 16 64 a }
{
    i64::from(((a % (1 << 16)) as u16).cast_signed()).cast_unsigned()
}

// The low 32 bits as a signed number of 64 bits.
fn wide_word(a: u64) -> u64
    ensures { result ≡ iextend_s 32 64 a }
{
    i64::from(((a % (1 << 32)) as u32).cast_signed()).cast_unsigned()
}
