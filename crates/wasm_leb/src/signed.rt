// Signed numbers of the binary format, in LEB128 (section 5.2.2).
ghost use Rattle.std.specs.Prelude.{
  ◌≡◌,
  ℕ,
  ℤ,
  pos,
  ◌+◌,
  ◌-◌,
  ◌<◌,
  ◌≤◌,
  ◌^◌,
  ◌+ℤ◌,
  ◌*ℤ◌,
  ◌<ℤ◌,
  ◌≤ℤ◌,
  ◌↔◌,
  List,
  [],
  ◌∷◌,
  length,
  take,
  drop,
  IsTrue,
  IfSome,
  IfNone,
  OnOk,
  OnErr,
};
ghost use Rattle.spec_binary.specs.Number.{IsSigned, SpellsSigned, Begins, IsShortest, Appends};

use spec_binary::wasm_form::Memory;
use std::alloc::{AllocError, Global};

/// Reads a signed number of 32 bits (`s32`, section 5.2.2) that begins at a place: its value, and the place after it.
/// None where no spelling of such a number begins there.
pub fn read_s32(bytes: &[u8], at: usize) -> Option<(i32, usize)>
    requires { at ≤ length bytes.now }
    ensures end { IfSome result (λ r. r.1 ≤ length bytes.now) }
    ensures after { IfSome result (λ r. at < r.1) }
    ensures found { IfSome result (λ r. Begins (SpellsSigned 32 r.0) (drop at bytes.now) (drop r.1 bytes.now)) }
    ensures none { IfNone result ((v : ℤ) (rest : List ℕ) → Begins (SpellsSigned 32 v) (drop at bytes.now) rest → ⊥) }
{
    let (value, end) = read_signed(bytes, at, 32)?;
    Some((value as i32, end))
}

/// Reads a signed number of 33 bits (`s33`) that begins at a place: its value, and the place after it. None where no
/// spelling of such a number begins there.
pub fn read_s33(bytes: &[u8], at: usize) -> Option<(i64, usize)>
    requires { at ≤ length bytes.now }
    ensures end { IfSome result (λ r. r.1 ≤ length bytes.now) }
    ensures after { IfSome result (λ r. at < r.1) }
    ensures range { IfSome result (λ r. IsSigned 33 r.0) }
    ensures found { IfSome result (λ r. Begins (SpellsSigned 33 r.0) (drop at bytes.now) (drop r.1 bytes.now)) }
    ensures none { IfNone result ((v : ℤ) (rest : List ℕ) → Begins (SpellsSigned 33 v) (drop at bytes.now) rest → ⊥) }
{
    read_signed(bytes, at, 33)
}

/// Reads a signed number of 64 bits (`s64`) that begins at a place: its value, and the place after it. None where no
/// spelling of such a number begins there.
pub fn read_s64(bytes: &[u8], at: usize) -> Option<(i64, usize)>
    requires { at ≤ length bytes.now }
    ensures end { IfSome result (λ r. r.1 ≤ length bytes.now) }
    ensures after { IfSome result (λ r. at < r.1) }
    ensures found { IfSome result (λ r. Begins (SpellsSigned 64 r.0) (drop at bytes.now) (drop r.1 bytes.now)) }
    ensures none { IfNone result ((v : ℤ) (rest : List ℕ) → Begins (SpellsSigned 64 v) (drop at bytes.now) rest → ⊥) }
{
    read_signed(bytes, at, 64)
}

/// Writes a signed number of 32 bits at the end, in its shortest spelling. At an error nothing is written.
pub fn put_s32(_alloc: Global, to: &mut Vec<u8>, v: i32) -> Result<(), Memory>
    ensures ok { OnOk result (Appends (IsShortest (SpellsSigned 32 v)) to.old.items to.new.items) }
    ensures err { OnErr result (to.new.items ≡ to.old.items) }
{
    put_signed(to, i64::from(v))
}

/// Writes a signed number of 33 bits at the end, in its shortest spelling. At an error nothing is written.
pub fn put_s33(_alloc: Global, to: &mut Vec<u8>, v: i64) -> Result<(), Memory>
    requires least { pos 0 ≤ℤ (v +ℤ pos (2 ^ 32)) }
    requires below { v <ℤ pos (2 ^ 32) }
    ensures ok { OnOk result (Appends (IsShortest (SpellsSigned 33 v)) to.old.items to.new.items) }
    ensures err { OnErr result (to.new.items ≡ to.old.items) }
{
    put_signed(to, v)
}

/// Writes a signed number of 64 bits at the end, in its shortest spelling. At an error nothing is written.
pub fn put_s64(_alloc: Global, to: &mut Vec<u8>, v: i64) -> Result<(), Memory>
    ensures ok { OnOk result (Appends (IsShortest (SpellsSigned 64 v)) to.old.items to.new.items) }
    ensures err { OnErr result (to.new.items ≡ to.old.items) }
{
    put_signed(to, v)
}

// Reads a number of at most `bits` bits.
fn read_signed(bytes: &[u8], at: usize, bits: u32) -> Option<(i64, usize)>
    requires place { at ≤ length bytes.now }
    requires some { 0 < bits }
    requires width { bits ≤ 64 }
    ensures end { IfSome result (λ r. r.1 ≤ length bytes.now) }
    ensures after { IfSome result (λ r. at < r.1) }
    ensures range { IfSome result (λ r. IsSigned bits r.0) }
    ensures found { IfSome result (λ r. Begins (SpellsSigned bits r.0) (drop at bytes.now) (drop r.1 bytes.now)) }
    ensures none { IfNone result ((v : ℤ) (rest : List ℕ) → Begins (SpellsSigned bits v) (drop at bytes.now) rest → ⊥) }
{
    if at == bytes.len() {
        return None;
    }
    let b = bytes[at];
    if b < 128 {
        let value = last_value(b, bits)?;
        return Some((value, at + 1));
    }
    if bits <= 7 {
        return None;
    }
    let (high, end) = read_signed(bytes, at + 1, bits - 7)?;
    Some((joined(b, high, bits), end))
}

// The number that a last byte spells, if it has at most `bits` bits.
fn last_value(b: u8, bits: u32) -> Option<i64>
    requires last { b < 128 }
    requires some { 0 < bits }
    requires width { bits ≤ 64 }
    ensures found { IfSome result (λ v. SpellsSigned bits v (b ∷ [])) }
    ensures none { IfNone result ((v : ℤ) → SpellsSigned bits v (b ∷ []) → ⊥) }
{
    let value = if b < 64 {
        i64::from(b)
    } else {
        i64::from(b) - 128
    };
    if fits(value, bits) { Some(value) } else { None }
}

// Whether a number of seven bits has at most `bits` bits.
fn fits(v: i64, bits: u32) -> bool
    requires least { pos 0 ≤ℤ (v +ℤ pos 64) }
    requires below { v <ℤ pos 64 }
    requires some { 0 < bits }
    requires width { bits ≤ 64 }
    ensures { IsTrue result ↔ IsSigned bits v }
{
    if bits >= 7 {
        return true;
    }
    let half = 1i64 << (bits - 1);
    v + half >= 0 && v < half
}

// The number whose low seven bits stand in a byte, below the other bits.
fn joined(b: u8, high: i64, bits: u32) -> i64
    requires more { 128 ≤ b }
    requires wide { 7 < bits }
    requires width { bits ≤ 64 }
    requires range { IsSigned (bits - 7) high }
    ensures value { result ≡ pos 128 *ℤ high +ℤ pos (b - 128) }
    ensures range { IsSigned bits result }
{
    128 * high + i64::from(b - 128)
}

// Writes a number, or nothing at an error.
fn put_signed(to: &mut Vec<u8>, v: i64) -> Result<(), Memory>
    ensures ok { OnOk result ((n : ℕ) → IsSigned n v → Appends (IsShortest (SpellsSigned n v)) to.old.items to.new.items) }
    ensures err { OnErr result (to.new.items ≡ to.old.items) }
{
    let start = to.len();
    match push_signed(to, v) {
        Ok(()) => Ok(()),
        Err(_) => {
            to.truncate(start);
            Err(Memory)
        }
    }
}

// Writes the low seven bits with the rest after them. At an error some bytes may have been written.
fn push_signed(to: &mut Vec<u8>, v: i64) -> Result<(), AllocError>
    ensures ok { OnOk result ((n : ℕ) → IsSigned n v → Appends (IsShortest (SpellsSigned n v)) to.old.items to.new.items) }
    ensures err { OnErr result (take (length to.old.items) to.new.items ≡ to.old.items) }
{
    let (low, high) = split(v);
    if -64 <= v && v < 64 {
        to.push(low)?;
        return Ok(());
    }
    to.push(low + 128)?;
    push_signed(to, high)
}

// The low seven bits of a number, and the number of the others.
fn split(v: i64) -> (u8, i64)
    ensures low { result.0 < 128 }
    ensures value { v ≡ pos 128 *ℤ result.1 +ℤ pos result.0 }
{
    (v.rem_euclid(128) as u8, v.div_euclid(128))
}
