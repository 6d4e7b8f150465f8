// What the module is made of beside the merged module and the memory.
use wasm_form::{Ref, Value};
use wasm_space::Slots;

/// What a run of a linked set has, by addresses in its store. A segment that was dropped is empty.
#[derive(Clone, Copy)]
pub struct Flat<'a> {
    pub globals: &'a [Value],
    pub tables: &'a [Slots],
    pub elems: &'a [Vec<Option<Ref>>],
    pub datas: &'a [&'a [u8]],
}

/// What the merged module has behind these: numbers that are globals, and of each element segment whether it is left.
#[derive(Clone, Copy)]
pub struct Added<'a> {
    pub globals: &'a [u32],
    pub left: &'a [bool],
}
