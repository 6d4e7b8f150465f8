// What the memory holds at an address.
ghost use Rattle.std.specs.Prelude.{◌≡◌, ◌≤◌, ◌+◌, ◌<◌, ◌^◌, length, slice_index};
ghost use Rattle.spec_hosts.specs.Calls as calls;

use wasm_space::Space;

/// The bytes of a page of memory.
const PAGE: u128 = 65_536;

/// Whether so many bytes from an address on lie inside the memory.
pub(crate) fn is_in(memory: &Space, at: u32, len: u128) -> bool
    ensures value { result ≡ calls.is_in memory.now at len }
    ensures most { length memory.now.bytes ≤ 2 ^ 32 }
{
    let size = u128::from(memory.size()) * PAGE;
    let at = u128::from(at);
    at <= size && len <= size - at
}

/// The number of 32 bits at an address and an offset, the lowest byte first.
pub(crate) fn number_at(memory: &Space, at: u32, offset: u32) -> u32
    requires { at + offset + 4 ≤ length memory.now.bytes }
    ensures { result ≡ calls.number_at memory.now (at + offset) }
{
    match memory.load(at, offset, 4) {
        Ok(number) => number as u32,
        Err(_) => unreachable!(),
    }
}

/// The byte at an address and an offset.
pub(crate) fn byte_at(memory: &Space, at: u32, offset: u32) -> u8
    requires { at + offset < length memory.now.bytes }
    ensures { result ≡ slice_index memory.now.bytes (at + offset) }
{
    match memory.load(at, offset, 1) {
        Ok(byte) => byte as u8,
        Err(_) => unreachable!(),
    }
}
