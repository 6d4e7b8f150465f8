// One page of a memory.
ghost use Rattle.std.specs.Prelude.{◌≡◌, ◌≤◌, ◌<◌, ◌+◌, ◌*◌, ◌^◌, length, take, drop, replicate, IfOk};
ghost use Rattle.spec_runtime.specs.Memories.{page_size, zeros, overwritten, little, little_value};
ghost use Rattle.wasm_space.specs.Access.{IsAccessLength};

use crate::little::{read_little, write_little};
use crate::shift::shift;
use spec_runtime::wasm_form::Memory;
use std::alloc::Global;
use std::marker::Model;

/// The bytes of a page (section 4.2.8).
pub(crate) const PAGE: usize = 65_536;

/// The bytes of a page, an allocation of their own. Contracts see it as their list.
#[derive(Drop)]
pub(crate) struct Page {
    bytes: Box<[u8; PAGE]>,
}

impl Model for Page {
    ghost use Rattle.std.specs.Prelude.{◌≡◌, ℕ, List, length};

    ghost Value = { List ℕ };

    ghost view = { λ p. p.bytes.value };

    ghost invariant = { λ p. length p.bytes.value ≡ 65536 };
}

impl Page {
    /// A page of zeros.
    pub fn new(alloc: Global) -> Result<Page, Memory>
        ensures { IfOk result (λ p. p ≡ zeros page_size) }
    {
        let bytes = Box::new(alloc, [0; PAGE])?;
        Ok(Page { bytes })
    }

    /// So many bytes from a place on.
    pub fn part(&self, at: usize, n: usize) -> &[u8]
        requires { at + n ≤ page_size }
        ensures value { result.now ≡ take n (drop at self.now) }
        ensures len { length result.now ≡ n }
    {
        &self.bytes[at..at + n]
    }

    /// The number in `len` bytes at a place.
    #[inline(always)]
    pub fn number(&self, at: usize, len: u8) -> u64
        requires access { IsAccessLength len }
        requires within { at + len ≤ page_size }
        ensures value { result ≡ little_value (take len (drop at self.now)) }
        ensures range { result < 2 ^ (8 * len) }
    {
        read_little(&self.bytes[at..at + len as usize])
    }

    /// Writes the lowest `len` bytes of a number at a place.
    #[inline(always)]
    pub fn set_number(&mut self, at: usize, len: u8, value: u64)
        requires access { IsAccessLength len }
        requires within { at + len ≤ page_size }
        ensures { self.new ≡ overwritten self.old at (little len value) }
    {
        write_little(&mut self.bytes[at..at + len as usize], value);
    }

    /// Writes bytes at a place.
    pub fn put(&mut self, at: usize, bytes: &[u8])
        requires { at + length bytes.now ≤ page_size }
        ensures { self.new ≡ overwritten self.old at bytes.now }
    {
        self.bytes[at..at + bytes.len()].copy_from_slice(bytes);
    }

    /// Sets so many bytes from a place on.
    pub fn fill(&mut self, at: usize, byte: u8, n: usize)
        requires { at + n ≤ page_size }
        ensures { self.new ≡ overwritten self.old at (replicate n byte) }
    {
        self.bytes[at..at + n].fill(byte);
    }

    /// Copies bytes inside the page, as if all were read before the first is written.
    pub fn shift(&mut self, to: usize, from: usize, n: usize)
        requires from { from + n ≤ page_size }
        requires to { to + n ≤ page_size }
        ensures { self.new ≡ overwritten self.old to (take n (drop from self.old)) }
    {
        shift(&mut *self.bytes, to, from, n);
    }
}
