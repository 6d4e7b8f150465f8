// What a member defines a name as.
use spec_linking::wasm_form::Text;

/// What a name is defined as: a function by its number, or the place of data in the member's memory region.
#[derive(Clone, Copy)]
pub enum Symbol {
    Function(u32),
    Datum(u32),
}

/// A name and what it is defined as.
#[derive(Drop)]
pub struct Definition {
    pub name: Text,
    pub symbol: Symbol,
}
