// A module and its parts (WebAssembly Core 2.0, sections 2.5 and 5.5).
use crate::instr::Expr;
use crate::list::List;
use crate::text::Text;
use crate::types::{FuncType, GlobalType, Limits, TableType, ValType};

/// What an import wants: a function by its type number, a table, a memory or a global.
#[derive(Clone, Copy, Debug, PartialEq, Eq)]
pub enum ImportDesc {
    Func(u32),
    Table(TableType),
    Space(Limits),
    Global(GlobalType),
}

/// An import by its module and field names.
#[derive(Drop)]
pub struct Import {
    pub module: Text,
    pub field: Text,
    pub desc: ImportDesc,
}

/// What an export gives: a function, table, memory or global by its number.
#[derive(Clone, Copy, Debug, PartialEq, Eq)]
pub enum ExportDesc {
    Func(u32),
    Table(u32),
    Space(u32),
    Global(u32),
}

/// An export by its name.
#[derive(Drop)]
pub struct Export {
    pub name: Text,
    pub desc: ExportDesc,
}

/// A global that the module itself defines.
#[derive(Drop)]
pub struct GlobalDef {
    pub ty: GlobalType,
    pub init: Expr,
}

/// When an element segment is applied.
#[derive(Drop)]
pub enum ElemMode {
    Active { table: u32, offset: Expr },
    Passive,
    Declarative,
}

/// The entries of an element segment: function numbers, or constant expressions of a reference type.
#[derive(Drop)]
pub enum ElemItems {
    Funcs(List<u32>),
    Exprs { elem: ValType, items: List<Expr> },
}

/// An element segment.
#[derive(Drop)]
pub struct Elem {
    pub mode: ElemMode,
    pub items: ElemItems,
}

/// When a data segment is applied.
#[derive(Drop)]
pub enum DataMode {
    Active { memory: u32, offset: Expr },
    Passive,
}

/// A data segment.
#[derive(Drop)]
pub struct Data {
    pub mode: DataMode,
    pub bytes: List<u8>,
}

/// That many locals of one type.
#[derive(Clone, Copy, Debug, PartialEq, Eq)]
pub struct Group {
    pub count: u32,
    pub ty: ValType,
}

/// The locals and the body of a function that the module itself defines.
#[derive(Drop)]
pub struct Code {
    pub locals: List<Group>,
    pub body: Expr,
}

/// A function with its type, as a module that is made has it: the type goes to the types, the locals and the body to the code section.
#[derive(Drop)]
pub struct Part {
    pub ty: FuncType,
    pub code: Code,
}

/// A custom section. Its rank is the greatest rank of a section before it that isn't empty, or 0; the ranks of
/// the sections 1 to 9 are their numbers, and data count, code and data have 10, 11 and 12.
#[derive(Drop)]
pub struct Custom {
    pub rank: u8,
    pub name: Text,
    pub bytes: List<u8>,
}

/// A module, by its sections.
#[derive(Drop)]
pub struct Module {
    pub types: List<FuncType>,
    pub imports: List<Import>,
    pub funcs: List<u32>,
    pub tables: List<TableType>,
    pub memories: List<Limits>,
    pub globals: List<GlobalDef>,
    pub exports: List<Export>,
    pub start: Option<u32>,
    pub elems: List<Elem>,
    pub data_count: Option<u32>,
    pub codes: List<Code>,
    pub datas: List<Data>,
    pub customs: List<Custom>,
}
