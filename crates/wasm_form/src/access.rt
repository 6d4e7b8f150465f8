// Loads and stores of integers (section 5.4.6).
ghost use Rattle.std.specs.Prelude.{◌≡◌, Some, true, false};
ghost use Rattle.wasm_form.specs.Access as specs;

use crate::ValType;

/// A load or a store: the type of its value, how many bytes it accesses, as a power of two, and whether it is a store.
#[derive(Clone, Copy, Debug, PartialEq, Eq)]
pub struct MemoryAccess {
    pub value: ValType,
    pub exponent: u32,
    pub writes: bool,
}

/// A load of a value from 2^exponent bytes.
fn load(value: ValType, exponent: u32) -> Option<MemoryAccess>
    ensures { result ≡ Some (specs.load value exponent) }
{
    Some(MemoryAccess {
        value,
        exponent,
        writes: false,
    })
}

/// A store of a value into 2^exponent bytes.
fn store(value: ValType, exponent: u32) -> Option<MemoryAccess>
    ensures { result ≡ Some (specs.store value exponent) }
{
    Some(MemoryAccess {
        value,
        exponent,
        writes: true,
    })
}

/// The load or store of an integer with this opcode, if there is one.
#[inline(always)]
pub fn memory_access(op: u8) -> Option<MemoryAccess>
    ensures { result ≡ specs.memory_access op }
{
    match op {
        0x28 => load(ValType::I32, 2),
        0x29 => load(ValType::I64, 3),
        0x2C..=0x2D => load(ValType::I32, 0),
        0x2E..=0x2F => load(ValType::I32, 1),
        0x30..=0x31 => load(ValType::I64, 0),
        0x32..=0x33 => load(ValType::I64, 1),
        0x34..=0x35 => load(ValType::I64, 2),
        0x36 => store(ValType::I32, 2),
        0x37 => store(ValType::I64, 3),
        0x3A => store(ValType::I32, 0),
        0x3B => store(ValType::I32, 1),
        0x3C => store(ValType::I64, 0),
        0x3D => store(ValType::I64, 1),
        0x3E => store(ValType::I64, 2),
        _ => None,
    }
}
