// What an import stands for.
ghost use Rattle.std.specs.Prelude.{◌≡◌};
ghost use Rattle.spec_loading.specs.spec_linking.Imports as imports;
ghost use Rattle.dyl_imports.specs.Uses.{use_value, env_use};

use wasm_form::{Import, ImportDesc};

/// What an import stands for: what all members share, the bases of the member, cells, functions by the numbers of their types, or something
/// else.
#[derive(Clone, Copy)]
pub enum Use {
    SharedMemory,
    SharedTable,
    StackPointer,
    MemoryBase,
    TableBase,
    DataCell,
    SlotCell,
    EnvFunction(u32),
    ModuleFunction(u32),
    Other,
}

fn function_use(of_env: bool, desc: ImportDesc) -> Use
    ensures { use_value result ≡ imports.function_use of_env desc }
{
    match desc {
        ImportDesc::Func(t) if of_env => Use::EnvFunction(t),
        ImportDesc::Func(t) => Use::ModuleFunction(t),
        ImportDesc::Table(_) | ImportDesc::Space(_) | ImportDesc::Global(_) => Use::Other,
    }
}

// What an import of `env` stands for.
fn env_use(i: &Import) -> Use
    ensures { use_value result ≡ env_use i.now }
{
    match i.field.as_str() {
        "memory" => Use::SharedMemory,
        "__indirect_function_table" => Use::SharedTable,
        "__stack_pointer" => Use::StackPointer,
        "__memory_base" => Use::MemoryBase,
        "__table_base" => Use::TableBase,
        _ => function_use(true, i.desc),
    }
}

/// What an import stands for.
pub fn use_of(i: &Import) -> Use
    ensures { use_value result ≡ imports.use_of i.now }
{
    match i.module.as_str() {
        "env" => env_use(i),
        "GOT.mem" => Use::DataCell,
        "GOT.func" => Use::SlotCell,
        _ => function_use(false, i.desc),
    }
}
