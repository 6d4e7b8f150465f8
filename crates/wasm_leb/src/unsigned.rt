// Unsigned numbers of the binary format, in LEB128 (section 5.2.2).
ghost use Rattle.std.specs.Prelude.{
  ◌≡◌,
  ℕ,
  ◌+◌,
  ◌<◌,
  ◌≤◌,
  ◌^◌,
  ◌↔◌,
  List,
  length,
  take,
  drop,
  IsTrue,
  IfSome,
  IfNone,
  OnOk,
  OnErr,
};
ghost use Rattle.spec_binary.specs.Number.{SpellsUnsigned, Begins, IsShortest, Appends};

use spec_binary::wasm_form::Memory;
use std::alloc::{AllocError, Global};

/// Reads an unsigned number of 32 bits (`u32`, section 5.2.2) that begins at a place: its value, and the place after
/// it. None where no spelling of such a number begins there.
pub fn read_u32(bytes: &[u8], at: usize) -> Option<(u32, usize)>
    requires { at ≤ length bytes.now }
    ensures end { IfSome result (λ r. r.1 ≤ length bytes.now) }
    ensures after { IfSome result (λ r. at < r.1) }
    ensures found { IfSome result (λ r. Begins (SpellsUnsigned 32 r.0) (drop at bytes.now) (drop r.1 bytes.now)) }
    ensures none { IfNone result ((v : ℕ) (rest : List ℕ) → Begins (SpellsUnsigned 32 v) (drop at bytes.now) rest → ⊥) }
{
    let (value, end) = read_unsigned(bytes, at, 32)?;
    Some((value as u32, end))
}

/// Writes an unsigned number of 32 bits at the end, in its shortest spelling. At an error nothing is written.
pub fn put_u32(_alloc: Global, to: &mut Vec<u8>, v: u32) -> Result<(), Memory>
    ensures ok { OnOk result (Appends (IsShortest (SpellsUnsigned 32 v)) to.old.items to.new.items) }
    ensures err { OnErr result (to.new.items ≡ to.old.items) }
{
    let start = to.len();
    match push_unsigned(to, u64::from(v)) {
        Ok(()) => Ok(()),
        Err(_) => {
            to.truncate(start);
            Err(Memory)
        }
    }
}

// Reads a number of at most `bits` bits.
fn read_unsigned(bytes: &[u8], at: usize, bits: u32) -> Option<(u64, usize)>
    requires place { at ≤ length bytes.now }
    requires width { bits ≤ 64 }
    ensures end { IfSome result (λ r. r.1 ≤ length bytes.now) }
    ensures after { IfSome result (λ r. at < r.1) }
    ensures small { IfSome result (λ r. r.0 < 2 ^ bits) }
    ensures found { IfSome result (λ r. Begins (SpellsUnsigned bits r.0) (drop at bytes.now) (drop r.1 bytes.now)) }
    ensures none { IfNone result ((v : ℕ) (rest : List ℕ) → Begins (SpellsUnsigned bits v) (drop at bytes.now) rest → ⊥) }
{
    if at == bytes.len() {
        return None;
    }
    let b = bytes[at];
    if b < 128 {
        return if fits(b, bits) {
            Some((u64::from(b), at + 1))
        } else {
            None
        };
    }
    if bits <= 7 {
        return None;
    }
    let (high, end) = read_unsigned(bytes, at + 1, bits - 7)?;
    Some((128 * high + u64::from(b - 128), end))
}

// Whether a last byte is below 2^bits.
fn fits(b: u8, bits: u32) -> bool
    requires { b < 128 }
    ensures { IsTrue result ↔ b < 2 ^ bits }
{
    bits >= 7 || b < 1 << bits
}

// Writes the low seven bits with the rest after them. At an error some bytes may have been written.
fn push_unsigned(to: &mut Vec<u8>, v: u64) -> Result<(), AllocError>
    ensures ok { OnOk result ((n : ℕ) → v < 2 ^ n → Appends (IsShortest (SpellsUnsigned n v)) to.old.items to.new.items) }
    ensures err { OnErr result (take (length to.old.items) to.new.items ≡ to.old.items) }
{
    if v < 128 {
        to.push(v as u8)?;
        return Ok(());
    }
    to.push((v % 128) as u8 + 128)?;
    push_unsigned(to, v / 128)
}
