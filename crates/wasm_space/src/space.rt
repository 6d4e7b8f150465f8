// A memory (WebAssembly Core 2.0, sections 4.2.8 and 4.4.7).
ghost use Rattle.std.specs.Prelude.{◌≡◌, ◌≤◌, ◌<◌, ◌*◌, ◌^◌, length, take, drop, IfOk, ◌+◌};
ghost use Rattle.std.specs.Option.{ok_or};
ghost use Rattle.spec_runtime.specs.Memories.{page_size, new_memory, loaded, stored, copied, filled, written, initialized, pages, grown};
ghost use Rattle.wasm_space.specs.Access.{IsAccessLength, ChangesOrTraps, GrowsOrStays};

use crate::little::{read_little, write_little};
use crate::page::{PAGE, Page};
use crate::pages::{fill, move_bytes, new_pages, read, write};
use spec_runtime::wasm_form::{Memory, Trap};
use std::alloc::Global;
use std::marker::Model;

/// A memory: pages of bytes, each an allocation of its own, and the most pages that there may be. Contracts see it as
/// a `MemoryInstance`.
#[derive(Drop)]
pub struct Space {
    pages: Vec<Page>,
    max: u32,
}

impl Model for Space {
    ghost use Rattle.std.specs.Prelude.{◌≡◌, ◌≤◌, ◌*◌, length};
    ghost use Rattle.spec_runtime.specs.Memories.{MemoryInstance};
    ghost use Rattle.wasm_space.specs.Paged.{joined, ArePages};

    ghost Value = { MemoryInstance };

    ghost view = { λ s. record { bytes = joined s.pages.items; max = s.max } };

    ghost invariant = { λ s. ArePages s.pages.items × (length s.pages.items ≤ s.max) × (s.max ≤ 65536) };
}

impl Space {
    /// A memory of so many pages of zeros, which may grow to `max` pages. Without memory for them `Memory`.
    pub fn new(alloc: Global, pages: u32, max: u32) -> Result<Space, Memory>
        requires within { pages ≤ max }
        requires most { max ≤ 65536 }
        ensures { IfOk result (λ s. s ≡ new_memory pages max) }
    {
        let pages = new_pages(alloc, pages)?;
        Ok(Space { pages, max })
    }

    /// The size in pages (section 4.4.7, memory.size).
    pub fn size(&self) -> u32
        ensures value { result ≡ pages self.now }
        ensures whole { length self.now.bytes ≡ result * page_size }
        ensures within { result ≤ self.now.max }
        ensures most { self.now.max ≤ 65536 }
    {
        self.pages.len() as u32
    }

    /// The address past the last byte.
    fn end(&self) -> usize
        ensures value { result ≡ length self.now.bytes }
        ensures most { result ≤ 2 ^ 32 }
    {
        self.pages.len() * PAGE
    }

    /// The bytes from an address to the end of its page; none at the end of the memory and past it.
    pub fn rest_of_page(&self, at: usize) -> &[u8]
        ensures value { result.now ≡ take (length result.now) (drop at self.now.bytes) }
        ensures some { at < length self.now.bytes → 0 < length result.now }
    {
        if at / PAGE >= self.pages.len() {
            return &[];
        }
        self.pages[at / PAGE].part(at % PAGE, PAGE - at % PAGE)
    }

    /// Adds so many pages of zeros and answers the old size in pages, or 4,294,967,295 exactly where the new
    /// size would pass the maximum (section 4.4.7, memory.grow). Without memory for them `Memory`, and the memory
    /// stays as it was.
    pub fn grow(&mut self, alloc: Global, delta: u32) -> Result<u32, Memory>
        ensures { GrowsOrStays self.old (grown self.old delta) (pages self.old) result self.new }
    {
        let old = self.size();
        if delta > self.max - old {
            return Ok(u32::MAX);
        }
        let mut more = new_pages(alloc, delta)?;
        self.pages.append(&mut more)?;
        Ok(old)
    }

    /// The number in `len` bytes at `base + offset`, the lowest byte first, added without wrapping; `MemoryBounds`
    /// where they pass the end (section 4.4.7, t.load).
    #[inline(always)]
    pub fn load(&self, base: u32, offset: u32, len: u8) -> Result<u64, Trap>
        requires { IsAccessLength len }
        ensures value { result ≡ ok_or (loaded self.now base offset len) Trap.MemoryBounds }
        ensures range { IfOk result (λ value. value < 2 ^ (8 * len)) }
    {
        let at = base as usize + offset as usize;
        let page = at / PAGE;
        let place = at % PAGE;
        if page < self.pages.len() && place + len as usize <= PAGE {
            return Ok(self.pages[page].number(place, len));
        }
        self.load_across(at, len)
    }

    /// The same where the bytes lie in two pages, or pass the end.
    #[cold]
    #[inline(never)]
    fn load_across(&self, at: usize, len: u8) -> Result<u64, Trap>
        requires access { IsAccessLength len }
        requires low { at < 2 ^ 33 }
        ensures value { result ≡ ok_or (loaded self.now at 0 len) Trap.MemoryBounds }
        ensures range { IfOk result (λ value. value < 2 ^ (8 * len)) }
    {
        let n = len as usize;
        if at + n > self.end() {
            return Err(Trap::MemoryBounds);
        }
        let mut bytes = [0; 8];
        read(&self.pages, at, &mut bytes[..n]);
        Ok(read_little(&bytes[..n]))
    }

    /// Writes the lowest `len` bytes of a number at `base + offset`; `MemoryBounds` where they pass the end, and
    /// nothing is written (section 4.4.7, t.store).
    #[inline(always)]
    pub fn store(&mut self, base: u32, offset: u32, len: u8, value: u64) -> Result<(), Trap>
        requires { IsAccessLength len }
        ensures { ChangesOrTraps Trap.MemoryBounds self.old (stored self.old base offset len value) result self.new }
    {
        let at = base as usize + offset as usize;
        let page = at / PAGE;
        let place = at % PAGE;
        if page < self.pages.len() && place + len as usize <= PAGE {
            self.pages[page].set_number(place, len, value);
            return Ok(());
        }
        self.store_across(at, len, value)
    }

    /// The same where the bytes lie in two pages, or pass the end.
    #[cold]
    #[inline(never)]
    fn store_across(&mut self, at: usize, len: u8, value: u64) -> Result<(), Trap>
        requires access { IsAccessLength len }
        requires low { at < 2 ^ 33 }
        ensures { ChangesOrTraps Trap.MemoryBounds self.old (stored self.old at 0 len value) result self.new }
    {
        let n = len as usize;
        if at + n > self.end() {
            return Err(Trap::MemoryBounds);
        }
        let mut bytes = [0; 8];
        write_little(&mut bytes[..n], value);
        write(&mut self.pages, at, &bytes[..n]);
        Ok(())
    }

    /// Copies `n` bytes from `from` to `to`, as if all were read before the first is written; `MemoryBounds` where
    /// either range passes the end, and nothing is written (section 4.4.7, memory.copy).
    #[inline(never)]
    pub fn copy(&mut self, to: u32, from: u32, n: u32) -> Result<(), Trap>
        ensures { ChangesOrTraps Trap.MemoryBounds self.old (copied self.old to from n) result self.new }
    {
        let page = to as usize / PAGE;
        let (place, first) = (to as usize % PAGE, from as usize % PAGE);
        if page == from as usize / PAGE
            && page < self.pages.len()
            && place.max(first) + n as usize <= PAGE
        {
            self.pages[page].shift(place, first, n as usize);
            return Ok(());
        }
        self.copy_across(to, from, n)
    }

    /// The same where the bytes lie in several pages, or pass the end.
    #[cold]
    #[inline(never)]
    fn copy_across(&mut self, to: u32, from: u32, n: u32) -> Result<(), Trap>
        ensures { ChangesOrTraps Trap.MemoryBounds self.old (copied self.old to from n) result self.new }
    {
        let (to, from, n) = (to as usize, from as usize, n as usize);
        let end = self.end();
        if from + n > end || to + n > end {
            return Err(Trap::MemoryBounds);
        }
        move_bytes(&mut self.pages, to, from, n);
        Ok(())
    }

    /// Sets `n` bytes from `to` on; `MemoryBounds` where they pass the end, and nothing is written (section 4.4.7,
    /// memory.fill).
    pub fn fill(&mut self, to: u32, byte: u8, n: u32) -> Result<(), Trap>
        ensures { ChangesOrTraps Trap.MemoryBounds self.old (filled self.old to byte n) result self.new }
    {
        let (to, n) = (to as usize, n as usize);
        if to + n > self.end() {
            return Err(Trap::MemoryBounds);
        }
        fill(&mut self.pages, to, byte, n);
        Ok(())
    }

    /// Writes all of these bytes at `to`; `MemoryBounds` where they pass the end of the memory, and nothing is written.
    pub fn put(&mut self, to: u32, bytes: &[u8]) -> Result<(), Trap>
        ensures { ChangesOrTraps Trap.MemoryBounds self.old (written self.old to bytes.now) result self.new }
    {
        let at = to as usize;
        if at + bytes.len() > self.end() {
            return Err(Trap::MemoryBounds);
        }
        write(&mut self.pages, at, bytes);
        Ok(())
    }

    /// Writes `n` of these bytes, from place `from` of them on, at `to`; `MemoryBounds` where they pass the end of
    /// the bytes or of the memory, and nothing is written (section 4.4.7, memory.init).
    pub fn init(&mut self, to: u32, bytes: &[u8], from: u32, n: u32) -> Result<(), Trap>
        ensures { ChangesOrTraps Trap.MemoryBounds self.old (initialized self.old to bytes.now from n) result self.new }
    {
        let (to, from, n) = (to as usize, from as usize, n as usize);
        if from + n > bytes.len() || to + n > self.end() {
            return Err(Trap::MemoryBounds);
        }
        write(&mut self.pages, to, &bytes[from..from + n]);
        Ok(())
    }
}
