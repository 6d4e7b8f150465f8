// Instructions (WebAssembly Core 2.0, sections 2.4 and 5.4).
use crate::list::List;
use crate::types::ValType;

/// The type of a block: no parameter and at most one result, or a type number of the module.
#[derive(Clone, Copy, Debug, PartialEq, Eq)]
pub enum BlockType {
    Empty,
    Value(ValType),
    Index(u32),
}

/// Instructions one after the other, without the byte that ends them.
#[cycle(expr)]
#[derive(Drop)]
pub struct Expr {
    pub list: List<Instr>,
}

/// An instruction, by the form of what follows its opcode.
///
/// `Plain` and `Index` hold the opcode's byte; `Prefixed` holds the number after the byte FC and up to two
/// immediates, which are 0 where they are absent or a fixed zero byte. Float constants are bits.
#[cycle(expr)]
#[derive(Drop)]
pub enum Instr {
    Plain(u8),
    Index(u8, u32),
    Block(BlockType, Expr),
    Loop(BlockType, Expr),
    If(BlockType, Expr, Option<Expr>),
    BrTable(List<u32>, u32),
    CallIndirect { ty: u32, table: u32 },
    Select(List<ValType>),
    Access { op: u8, align: u32, offset: u32 },
    MemorySize,
    MemoryGrow,
    I32Const(i32),
    I64Const(i64),
    F32Const(u32),
    F64Const(u64),
    RefNull(ValType),
    Prefixed { op: u32, a: u32, b: u32 },
}
