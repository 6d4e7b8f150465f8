// The types that a module declares (WebAssembly Core 2.0, section 2.3).
use crate::list::List;

/// A number type or a reference type.
#[derive(Clone, Copy, Debug, PartialEq, Eq)]
pub enum ValType {
    I32,
    I64,
    F32,
    F64,
    FuncRef,
    ExternRef,
}

/// The parameters and results of a function.
#[derive(Drop, PartialEq, Eq)]
pub struct FuncType {
    pub params: List<ValType>,
    pub results: List<ValType>,
}

/// The size range of a memory, in pages of 65,536 bytes, or of a table, in entries.
#[derive(Clone, Copy, Debug, PartialEq, Eq)]
pub struct Limits {
    pub min: u32,
    pub max: Option<u32>,
}

/// The element type and the size range of a table.
#[derive(Clone, Copy, Debug, PartialEq, Eq)]
pub struct TableType {
    pub elem: ValType,
    pub limits: Limits,
}

/// The type of a global, and whether it can be written.
#[derive(Clone, Copy, Debug, PartialEq, Eq)]
pub struct GlobalType {
    pub value: ValType,
    pub mutable: bool,
}
