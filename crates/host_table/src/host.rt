// What a host function is given, and what it answers.
ghost use Rattle.std.specs.Prelude.{◌≡◌, IfOk};
ghost use Rattle.host_table.specs.Names.{host_name_of};

use crate::copies::copied_type;
use spec_runtime::wasm_form::{FuncType, Memory, Text};
use std::alloc::Global;

/// Bytes that a host function writes into memory: the `len` low bytes of a number, the lowest first, from an address
/// on.
#[derive(Clone, Copy, Debug, PartialEq, Eq)]
pub struct Put {
    pub at: u32,
    pub bytes: u64,
    pub len: u8,
}

/// What a host function answers: its result, which is 0 where its type has none, and what it writes.
#[derive(Clone, Copy, Debug, PartialEq, Eq)]
pub struct Reply {
    pub result: u64,
    pub put: Option<Put>,
}

/// A host function: its module, its name and its type.
#[derive(Drop)]
pub struct HostName {
    pub module: Text,
    pub name: Text,
    pub ty: FuncType,
}

impl HostName {
    /// A host function by copies of its module, its name and its type.
    pub fn new(alloc: Global, from: &str, name: &str, ty: &FuncType) -> Result<HostName, Memory>
        ensures { IfOk result (λ h. host_name_of h ≡ (record { module_name = from.now; name = name.now; ty = ty.now })) }
    {
        let module = Text::copied(alloc, from)?;
        let name = Text::copied(alloc, name)?;
        let ty = copied_type(alloc, ty)?;
        Ok(HostName { module, name, ty })
    }
}

/// A host function as the embedder wrote it. It is given the arguments and the size of the memory in bytes.
pub type Callback = Box<dyn Fn(&[u64], u64) -> Reply>;
