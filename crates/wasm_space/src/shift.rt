// Bytes that are copied inside a list of bytes.
ghost use Rattle.std.specs.Prelude.{◌≡◌, ◌≤◌, ◌+◌, length, take, drop};
ghost use Rattle.spec_runtime.specs.Memories.{overwritten};

use crate::page::PAGE;

/// How many bytes a copy takes over the stack at once: more than most copies have.
pub(crate) const BLOCK: usize = 4096;

/// Copies `n` bytes from one place to another over an array of `N`. The compiler makes one move of both copies, and leaves the
/// array out.
fn shift_over<const N: usize>(bytes: &mut [u8], to: usize, from: usize, n: usize)
    requires small { N ≤ 65536 }
    requires most { n ≤ N }
    requires from { from + n ≤ length bytes.old }
    requires to { to + n ≤ length bytes.old }
    ensures { bytes.new ≡ overwritten bytes.old to (take n (drop from bytes.old)) }
{
    let mut block = [0; N];
    let part = &mut block[..n];
    part.copy_from_slice(&bytes[from..from + n]);
    bytes[to..to + n].copy_from_slice(part);
}

/// Copies `n` bytes from one place to another, a page at most, as if all were read before the first is written.
pub(crate) fn shift(bytes: &mut [u8], to: usize, from: usize, n: usize)
    requires most { n ≤ 65536 }
    requires from { from + n ≤ length bytes.old }
    requires to { to + n ≤ length bytes.old }
    ensures { bytes.new ≡ overwritten bytes.old to (take n (drop from bytes.old)) }
{
    if n <= BLOCK {
        shift_over::<BLOCK>(bytes, to, from, n);
    } else {
        shift_over::<PAGE>(bytes, to, from, n);
    }
}
