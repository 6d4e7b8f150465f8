// How much there is of a linked set.
ghost use Rattle.std.specs.Prelude.{◌≡◌, ◌≤◌, ◌<◌, ◌^◌, ◌+◌, length};
ghost use Rattle.spec_reading.specs.spec_binary.IndexSpaces.{imports_of, tables_in, table_space, function_space};
ghost use Rattle.merge_whole.specs.Counts.{members_of, size_in, total};

use dyl_link::dyl_search::Member;
use dyl_link::wasm_check::imported_functions;
use wasm_form::{Import, ImportDesc, Module};

// What members define, one kind of it.
#[derive(Clone, Copy)]
pub(crate) enum Space {
    Elems,
    Datas,
}

impl Space {
    fn size(self, wasm: &Module) -> usize
        ensures { result ≡ size_in self wasm.now }
    {
        match self {
            Space::Elems => wasm.elems.items().len(),
            Space::Datas => wasm.datas.items().len(),
        }
    }
}

// How much members have, beside so much.
pub(crate) fn total(members: &[Member], space: Space, start: u32) -> u32
    requires { total (size_in space) start (members_of members.now) < 2 ^ 32 }
    ensures { result ≡ total (size_in space) start (members_of members.now) }
{
    let mut next = start;
    for member in members {
        let size = space.size(member.checked.module()) as u32;
        next += size;
    }
    next
}

fn is_table(desc: &ImportDesc) -> u32
    ensures { result ≡ length (tables_in desc.now) }
{
    match desc {
        ImportDesc::Table(_) => 1,
        _ => 0,
    }
}

fn imported_tables(imports: &[Import]) -> u32
    requires { length imports.now < 2 ^ 32 }
    ensures told { result ≡ length (imports_of tables_in imports.now) }
    ensures few { result ≤ length imports.now }
{
    let mut count: u32 = 0;
    for import in imports {
        count += is_table(&import.desc);
    }
    count
}

// How many tables a module has, imported ones too.
pub(crate) fn table_count(wasm: &Module) -> u32
    requires { length wasm.now.imports + length wasm.now.tables < 2 ^ 32 }
    ensures { result ≡ length (table_space wasm.now) }
{
    let imported = imported_tables(wasm.imports.items());
    imported + wasm.tables.items().len() as u32
}

// How many functions a module has, imported ones too.
pub(crate) fn function_count(wasm: &Module) -> u32
    requires { length wasm.now.imports + length wasm.now.funcs < 2 ^ 32 }
    ensures { result ≡ length (function_space wasm.now) }
{
    let imported = imported_functions(wasm.imports.items()) as u32;
    imported + wasm.funcs.items().len() as u32
}
