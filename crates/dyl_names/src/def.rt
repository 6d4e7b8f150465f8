// The definition of a name.
use spec_linking::wasm_form::LoaderCall;

/// What a name is defined as for a member.
#[derive(Clone, Copy, Debug, PartialEq, Eq)]
pub enum Def {
    /// A function of the loader.
    Loader(LoaderCall),
    /// The end of the planned memory.
    HeapBase,
    /// The initial size of the memory.
    HeapEnd,
    /// A function of a member, by its number.
    Function { module: u32, func: u32 },
    /// The place of data in a member's memory region.
    Datum { module: u32, offset: u32 },
    /// The host function of module `env` with that name, by the number that was handed in.
    Host(u32),
    /// Nothing, which the member allows.
    Weak,
    /// Nothing.
    Nothing,
}
