// What a running program names (WebAssembly Core 2.0, section 4.2, and the loader of this program).
use crate::List;

/// Why a run was stopped by its own code.
#[derive(Clone, Copy, Debug, PartialEq, Eq)]
pub enum Trap {
    Unreachable,
    MemoryBounds,
    TableBounds,
    NullEntry,
    WrongType,
    DivideByZero,
    Overflow,
}

/// A function of the loader.
#[derive(Clone, Copy, Debug, PartialEq, Eq)]
pub enum LoaderCall {
    Dlopen,
    Dlsym,
    Dlclose,
    Dlerror,
}

/// A function of a run: that a unit defines itself, of the loader, of the host by its entry, or the stub that
/// stands for an imported function of a unit which nothing defines.
#[derive(Clone, Copy, Debug, PartialEq, Eq)]
pub enum Ref {
    Own { unit: u32, func: u32 },
    Loader(LoaderCall),
    Host(u32),
    Stub { unit: u32, func: u32 },
}

/// A value: a number by its bits, of which one of 32 bits has 0 as its high half; or a function or null.
#[derive(Clone, Copy, Debug, PartialEq, Eq)]
pub enum Value {
    Num(u64),
    Func(Option<Ref>),
}

/// Bytes that a host function writes into the memory, from an address on.
#[derive(Drop)]
pub struct Write {
    pub at: u32,
    pub bytes: List<u8>,
}

/// What a host function answers: the results in order and the writes in order, or the end of the program with a code.
#[derive(Drop)]
pub enum Answer {
    Reply {
        results: List<u64>,
        writes: List<Write>,
    },
    Exit(u32),
}

/// What a host function is asked: which one, by its entry, and the arguments in order.
#[derive(Drop)]
pub struct Asked {
    pub entry: u32,
    pub args: List<u64>,
}
