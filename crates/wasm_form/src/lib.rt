//! The abstract syntax of WebAssembly: types, instructions, modules, and which instruction an opcode is. Lists and texts of them; references,
//! traps, the values of a run, and what a host function is asked and answers.
#![tactic(auto)]

mod access;
mod index;
mod instr;
mod list;
mod memory;
mod module;
mod plain;
mod runtime;
mod second;
mod text;
mod types;

pub use access::{MemoryAccess, memory_access};
pub use index::{IndexForm, index_form};
pub use instr::{BlockType, Expr, Instr};
pub use list::List;
pub use memory::Memory;
pub use module::{
    Code, Custom, Data, DataMode, Elem, ElemItems, ElemMode, Export, ExportDesc, GlobalDef, Group,
    Import, ImportDesc, Module, Part,
};
pub use plain::{Operator, PlainForm, plain_form};
pub use runtime::{Answer, Asked, LoaderCall, Ref, Trap, Value, Write};
pub use second::{SecondForm, second_form};
pub use text::{Text, owned};
pub use types::{FuncType, GlobalType, Limits, TableType, ValType};
