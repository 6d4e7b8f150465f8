// A memory as one list of bytes: the plain one, with which a memory as pages is compared.
use std::alloc::{AllocError, Global};
use wasm_form::Trap;

#[derive(Drop)]
pub struct Flat {
    bytes: Vec<u8>,
}

impl Flat {
    // So many bytes, which are 0.
    pub fn new(alloc: Global, len: usize) -> Result<Flat, AllocError> {
        Ok(Flat {
            bytes: vec![in alloc; 0; len]?,
        })
    }

    // Further bytes, which are 0.
    pub fn grow(&mut self, more: u32) -> Result<(), AllocError> {
        for _ in 0..more {
            self.bytes.push(0)?;
        }
        Ok(())
    }

    // Whether so many bytes from an address on are there.
    fn has(&self, at: u32, n: u32) -> bool {
        at as usize + n as usize <= self.bytes.len()
    }

    fn get(&self, at: usize) -> u8 {
        self.bytes.get(at).copied().unwrap_or(0)
    }

    fn set(&mut self, at: usize, byte: u8) {
        if let Some(place) = self.bytes.get_mut(at) {
            *place = byte;
        }
    }

    // The number in some bytes, the lowest first.
    pub fn load(&self, at: u32, len: u8) -> Result<u64, Trap> {
        if !self.has(at, u32::from(len)) {
            return Err(Trap::MemoryBounds);
        }
        let mut value: u64 = 0;
        for k in 0..len {
            let from_end = at as usize + (len - 1 - k) as usize;
            value = (value << 8) | u64::from(self.get(from_end));
        }
        Ok(value)
    }

    pub fn store(&mut self, at: u32, len: u8, value: u64) -> Result<(), Trap> {
        if !self.has(at, u32::from(len)) {
            return Err(Trap::MemoryBounds);
        }
        let mut rest = value;
        for k in 0..len {
            self.set(at as usize + k as usize, (rest % 256) as u8);
            rest >>= 8;
        }
        Ok(())
    }

    // The bytes are read before the first is written, where they are gone through from the right side.
    pub fn copy(&mut self, to: u32, from: u32, n: u32) -> Result<(), Trap> {
        if !self.has(to, n) || !self.has(from, n) {
            return Err(Trap::MemoryBounds);
        }
        for k in 0..n {
            let k = if to <= from { k } else { n - 1 - k } as usize;
            let byte = self.get(from as usize + k);
            self.set(to as usize + k, byte);
        }
        Ok(())
    }

    pub fn fill(&mut self, to: u32, byte: u8, n: u32) -> Result<(), Trap> {
        if !self.has(to, n) {
            return Err(Trap::MemoryBounds);
        }
        for k in 0..n {
            self.set(to as usize + k as usize, byte);
        }
        Ok(())
    }
}
