// Bytes that lie in several pages.
ghost use Rattle.std.specs.Prelude.{◌≡◌, ◌≤◌, ◌<◌, ◌+◌, ◌*◌, length, take, drop, replicate, IfOk};
ghost use Rattle.spec_runtime.specs.Memories.{page_size, zeros, overwritten};
ghost use Rattle.wasm_space.specs.Paged.{joined, ArePages};

use crate::page::{PAGE, Page};
use crate::shift::BLOCK;
use spec_runtime::wasm_form::Memory;
use std::alloc::Global;

/// So many pages of zeros.
pub(crate) fn new_pages(alloc: Global, n: u32) -> Result<Vec<Page>, Memory>
    ensures bytes { IfOk result (λ pages. joined pages.items ≡ zeros (n * page_size)) }
    ensures len { IfOk result (λ pages. length pages.items ≡ n) }
    ensures whole { IfOk result (λ pages. ArePages pages.items) }
{
    let mut pages = Vec::new(alloc);
    for _i in 0..n {
        pages.push(Page::new(alloc)?)?;
    }
    Ok(pages)
}

/// Reads bytes from an address on.
pub(crate) fn read(pages: &[Page], at: usize, bytes: &mut [u8])
    requires whole { ArePages pages.now }
    requires few { length pages.now ≤ 65536 }
    requires within { at + length bytes.old ≤ length pages.now * page_size }
    ensures { bytes.new ≡ take (length bytes.old) (drop at (joined pages.now)) }
{
    let mut done = 0;
    while done < bytes.len() {
        let from = at + done;
        let n = (PAGE - from % PAGE).min(bytes.len() - done);
        bytes[done..done + n].copy_from_slice(pages[from / PAGE].part(from % PAGE, n));
        done += n;
    }
}

/// Writes bytes from an address on.
pub(crate) fn write(pages: &mut [Page], at: usize, bytes: &[u8])
    requires whole { ArePages pages.old }
    requires few { length pages.old ≤ 65536 }
    requires within { at + length bytes.now ≤ length pages.old * page_size }
    ensures bytes { joined pages.new ≡ overwritten (joined pages.old) at bytes.now }
    ensures whole { ArePages pages.new }
{
    let mut done = 0;
    while done < bytes.len() {
        let to = at + done;
        let n = (PAGE - to % PAGE).min(bytes.len() - done);
        pages[to / PAGE].put(to % PAGE, &bytes[done..done + n]);
        done += n;
    }
}

/// Sets so many bytes from an address on.
pub(crate) fn fill(pages: &mut [Page], at: usize, byte: u8, count: usize)
    requires whole { ArePages pages.old }
    requires few { length pages.old ≤ 65536 }
    requires within { at + count ≤ length pages.old * page_size }
    ensures bytes { joined pages.new ≡ overwritten (joined pages.old) at (replicate count byte) }
    ensures whole { ArePages pages.new }
{
    let mut done = 0;
    while done < count {
        let to = at + done;
        let n = (PAGE - to % PAGE).min(count - done);
        pages[to / PAGE].fill(to % PAGE, byte, n);
        done += n;
    }
}

/// Copies bytes to a lower address.
pub(crate) fn move_down(pages: &mut [Page], to: usize, from: usize, count: usize)
    requires whole { ArePages pages.old }
    requires few { length pages.old ≤ 65536 }
    requires lower { to ≤ from }
    requires within { from + count ≤ length pages.old * page_size }
    ensures bytes { joined pages.new ≡ overwritten (joined pages.old) to (take count (drop from (joined pages.old))) }
    ensures whole { ArePages pages.new }
{
    let mut block = [0; BLOCK];
    let mut done = 0;
    while done < count {
        let n = BLOCK.min(count - done);
        read(pages, from + done, &mut block[..n]);
        write(pages, to + done, &block[..n]);
        done += n;
    }
}

/// Copies bytes to a higher address, the last ones first.
pub(crate) fn move_up(pages: &mut [Page], to: usize, from: usize, count: usize)
    requires whole { ArePages pages.old }
    requires few { length pages.old ≤ 65536 }
    requires higher { from ≤ to }
    requires within { to + count ≤ length pages.old * page_size }
    ensures bytes { joined pages.new ≡ overwritten (joined pages.old) to (take count (drop from (joined pages.old))) }
    ensures whole { ArePages pages.new }
{
    let mut block = [0; BLOCK];
    let mut left = count;
    while left > 0 {
        let n = BLOCK.min(left);
        left -= n;
        read(pages, from + left, &mut block[..n]);
        write(pages, to + left, &block[..n]);
    }
}

/// Copies bytes, as if all were read before the first is written.
pub(crate) fn move_bytes(pages: &mut [Page], to: usize, from: usize, count: usize)
    requires whole { ArePages pages.old }
    requires few { length pages.old ≤ 65536 }
    requires to { to + count ≤ length pages.old * page_size }
    requires from { from + count ≤ length pages.old * page_size }
    ensures bytes { joined pages.new ≡ overwritten (joined pages.old) to (take count (drop from (joined pages.old))) }
    ensures whole { ArePages pages.new }
{
    if to <= from {
        move_down(pages, to, from, count);
    } else {
        move_up(pages, to, from, count);
    }
}
