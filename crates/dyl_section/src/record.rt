// What a module says of itself.
use wasm_form::{List, Text};

/// An export's name and flags.
#[derive(Drop, PartialEq, Eq)]
pub struct ExportInfo {
    pub name: Text,
    pub flags: u32,
}

/// The name of the module that an import is wanted from, the import's name, and flags.
#[derive(Drop, PartialEq, Eq)]
pub struct ImportInfo {
    pub module: Text,
    pub field: Text,
    pub flags: u32,
}

/// What a `dylink.0` section says: the sizes of its module's memory and table regions with their alignments, which are
/// exponents of two; the modules that it needs; flags of its exports and of its imports; and the paths at which it
/// searches. Where a section says nothing of a number it is 0.
#[derive(Drop, PartialEq, Eq)]
pub struct Dylink {
    pub mem_size: u32,
    pub mem_align: u32,
    pub table_size: u32,
    pub table_align: u32,
    pub needed: List<Text>,
    pub exports: List<ExportInfo>,
    pub imports: List<ImportInfo>,
    pub paths: List<Text>,
}
