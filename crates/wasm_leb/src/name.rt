// Names of the binary format (section 5.2.4).
ghost use Rattle.std.specs.Prelude.{
  ◌≡◌,
  ℕ,
  ◌<◌,
  ◌≤◌,
  ◌^◌,
  List,
  length,
  drop,
  slice_range,
  IfSome,
  IfNone,
  OnOk,
  OnErr,
  IsUtf8,
};
ghost use Rattle.spec_binary.specs.Number.{Begins, IsShortest, Appends};
ghost use Rattle.spec_binary.specs.Name.{SpellsName};

use crate::unsigned::{put_u32, read_u32};
use spec_binary::wasm_form::Memory;
use std::alloc::Global;

/// Reads a name (section 5.2.4) that begins at a place: where its bytes start, and the place after them, which is
/// the place after the name. None where no spelling of a name begins there: no number stands there, or fewer bytes
/// follow it than it says, or they are not UTF-8.
pub fn read_name(bytes: &[u8], at: usize) -> Option<(usize, usize)>
    requires { at ≤ length bytes.now }
    ensures start { IfSome result (λ r. at < r.0) }
    ensures order { IfSome result (λ r. r.0 ≤ r.1) }
    ensures end { IfSome result (λ r. r.1 ≤ length bytes.now) }
    ensures utf8 { IfSome result (λ r. IsUtf8 (slice_range bytes.now r.0 r.1)) }
    ensures found { IfSome result (λ r. Begins (SpellsName (slice_range bytes.now r.0 r.1)) (drop at bytes.now) (drop r.1 bytes.now)) }
    ensures none { IfNone result ((name rest : List ℕ) → Begins (SpellsName name) (drop at bytes.now) rest → ⊥) }
{
    let (count, start) = read_u32(bytes, at)?;
    let count = count as usize;
    if count > bytes.len() - start {
        return None;
    }
    let end = start + count;
    match str::from_utf8(&bytes[start..end]) {
        Ok(_) => Some((start, end)),
        Err(_) => None,
    }
}

/// Writes a name at the end, in its shortest spelling. At an error nothing is written.
pub fn put_name(alloc: Global, to: &mut Vec<u8>, name: &str) -> Result<(), Memory>
    requires { length name.now < 2 ^ 32 }
    ensures ok { OnOk result (Appends (IsShortest (SpellsName name.now)) to.old.items to.new.items) }
    ensures err { OnErr result (to.new.items ≡ to.old.items) }
{
    let start = to.len();
    put_u32(alloc, to, name.len() as u32)?;
    match to.extend_from_slice(name.as_bytes()) {
        Ok(()) => Ok(()),
        Err(_) => {
            to.truncate(start);
            Err(Memory)
        }
    }
}
