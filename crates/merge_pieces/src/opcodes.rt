//! The opcodes of the instructions that generated code is made of (WebAssembly Core 2.0, section 5.4).

/// Traps.
pub const UNREACHABLE: u8 = 0x00;
/// Leaves a block.
pub const BR: u8 = 0x0C;
/// Leaves a block where a number isn't 0.
pub const BR_IF: u8 = 0x0D;
/// Returns from the function.
pub const RETURN: u8 = 0x0F;
/// Calls a function.
pub const CALL: u8 = 0x10;
/// Reads a local.
pub const LOCAL_GET: u8 = 0x20;
/// Writes a local.
pub const LOCAL_SET: u8 = 0x21;
/// Writes a local, and leaves the value.
pub const LOCAL_TEE: u8 = 0x22;
/// Reads a global.
pub const GLOBAL_GET: u8 = 0x23;
/// Writes a global.
pub const GLOBAL_SET: u8 = 0x24;
/// Reads a byte of the memory.
pub const I32_LOAD8_U: u8 = 0x2D;
/// Whether a number is 0.
pub const I32_EQZ: u8 = 0x45;
/// Whether two numbers are equal.
pub const I32_EQ: u8 = 0x46;
/// Whether two numbers differ.
pub const I32_NE: u8 = 0x47;
/// Whether a number is below another, both unsigned.
pub const I32_LT_U: u8 = 0x49;
/// Whether a number is not below another, both unsigned.
pub const I32_GE_U: u8 = 0x4F;
/// Whether a number of 64 bits is 0.
pub const I64_EQZ: u8 = 0x50;
/// The sum of two numbers.
pub const I32_ADD: u8 = 0x6A;
/// The difference of two numbers.
pub const I32_SUB: u8 = 0x6B;
/// The bits that two numbers share.
pub const I32_AND: u8 = 0x71;
/// The low 32 bits of a number of 64.
pub const I32_WRAP_I64: u8 = 0xA7;
/// A reference to a function.
pub const REF_FUNC: u8 = 0xD2;
/// Writes bytes of a data segment to the memory. This and those below are the numbers after the byte FC.
pub const MEMORY_INIT: u32 = 8;
/// Empties a data segment.
pub const DATA_DROP: u32 = 9;
/// Writes items of an element segment to a table.
pub const TABLE_INIT: u32 = 12;
/// Empties an element segment.
pub const ELEM_DROP: u32 = 13;
