// The operators of i64, by the opcodes of the same operators of i32. An opcode of none of a group's is taken for the
// last one of it.
ghost use Rattle.std.specs.Prelude.{◌≡◌, ◌<◌, ◌^◌};
ghost use Rattle.spec_runtime.specs.Numerics.{
  W64,
  idiv_u,
  idiv_s,
  irem_u,
  irem_s,
  ishr_s,
  irotl,
  irotr,
  unary_at,
  unary as unary_result,
  binary_at,
  binary as binary_outcome,
  compare_at,
  compare as compare_result,
};
ghost use Rattle.wasm_num.specs.Answers.{answer};

use spec_runtime::wasm_form::Trap;

#[tactic(auto, using(crate::proofs::Counts::counts))]
pub fn unary(op: u8, a: u64) -> u64
    ensures { result ≡ unary_result W64 (unary_at op) a }
{
    match op {
        0x67 => u64::from(a.leading_zeros()),
        0x68 => u64::from(a.trailing_zeros()),
        _ => u64::from(a.count_ones()),
    }
}

#[inline(always)]
pub fn binary(op: u8, a: u64, b: u64) -> Result<u64, Trap>
    ensures { result ≡ answer (binary_outcome W64 (binary_at op) a b) }
{
    match op {
        0x6A => Ok(a.wrapping_add(b)),
        0x6B => Ok(a.wrapping_sub(b)),
        0x6C => Ok(a.wrapping_mul(b)),
        0x6D => divide_signed(a, b),
        0x6E => divide(a, b),
        0x6F => remainder_signed(a, b),
        0x70 => remainder(a, b),
        0x71 => Ok(a & b),
        0x72 => Ok(a | b),
        0x73 => Ok(a ^ b),
        0x74 => Ok(a << (b % 64)),
        0x75 => Ok(shift_right_signed(a, b)),
        0x76 => Ok(a >> (b % 64)),
        0x77 => Ok(rotate_left(a, b)),
        _ => Ok(rotate_right(a, b)),
    }
}

#[inline(always)]
pub fn compare(op: u8, a: u64, b: u64) -> bool
    ensures { result ≡ compare_result W64 (compare_at op) a b }
{
    match op {
        0x45 => a == 0,
        0x46 => a == b,
        0x47 => a != b,
        0x48 => a.cast_signed() < b.cast_signed(),
        0x49 => a < b,
        0x4A => a.cast_signed() > b.cast_signed(),
        0x4B => a > b,
        0x4C => a.cast_signed() <= b.cast_signed(),
        0x4D => a <= b,
        0x4E => a.cast_signed() >= b.cast_signed(),
        _ => a >= b,
    }
}

fn divide(a: u64, b: u64) -> Result<u64, Trap>
    ensures { result ≡ answer (idiv_u a b) }
{
    if b == 0 {
        return Err(Trap::DivideByZero);
    }
    Ok(a / b)
}

fn remainder(a: u64, b: u64) -> Result<u64, Trap>
    ensures { result ≡ answer (irem_u a b) }
{
    if b == 0 {
        return Err(Trap::DivideByZero);
    }
    Ok(a % b)
}

fn divide_signed(a: u64, b: u64) -> Result<u64, Trap>
    ensures { result ≡ answer (idiv_s 64 a b) }
{
    if b == 0 {
        return Err(Trap::DivideByZero);
    }
    match a.cast_signed().checked_div(b.cast_signed()) {
        Some(q) => Ok(q.cast_unsigned()),
        None => Err(Trap::Overflow),
    }
}

fn remainder_signed(a: u64, b: u64) -> Result<u64, Trap>
    ensures { result ≡ answer (irem_s 64 a b) }
{
    if b == 0 {
        return Err(Trap::DivideByZero);
    }
    Ok(
        a.cast_signed()
            .wrapping_rem(b.cast_signed())
            .cast_unsigned(),
    )
}

fn shift_right_signed(a: u64, b: u64) -> u64
    ensures { result ≡ ishr_s 64 a b }
{
    (a.cast_signed() >> (b % 64)).cast_unsigned()
}

fn rotate_left(a: u64, b: u64) -> u64
    ensures { result ≡ irotl 64 a b }
{
    a.rotate_left((b % 64) as u32)
}

fn rotate_right(a: u64, b: u64) -> u64
    ensures { result ≡ irotr 64 a b }
{
    a.rotate_right((b % 64) as u32)
}
