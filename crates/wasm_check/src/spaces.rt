// The index spaces of a module (WebAssembly Core 2.0, section 2.5.1): what is imported comes first.
ghost use Rattle.std.specs.Prelude.{◌≡◌, ◌+◌, ◌++◌, ◌<◌, ◌≤◌, ◌^◌, length, map, OnOk, IfOk};
ghost use Rattle.spec_execution.specs.spec_binary.IndexSpaces.{functions_in, tables_in, globals_in, memories_in, imports_of, function_space, global_space, type_of_global};
ghost use Rattle.wasm_check.specs.Spaces.{entries, item_type_of, AreSpaces};

use crate::support::item_type;
use std::alloc::Global;
use wasm_form::{
    Elem, GlobalDef, GlobalType, Import, ImportDesc, Memory, Module, TableType, ValType,
};

/// The index spaces of a module: its functions by the numbers of their types, its tables by the types of their
/// entries, its memories by their number, the globals that are imported, all of its globals, and its element
/// segments by the types of their items.
#[derive(Drop)]
pub(crate) struct Spaces {
    pub functions: Vec<u32>,
    pub tables: Vec<ValType>,
    pub memories: usize,
    pub imported: Vec<GlobalType>,
    pub globals: Vec<GlobalType>,
    pub elems: Vec<ValType>,
}

fn put_function(to: &mut Vec<u32>, desc: &ImportDesc) -> Result<(), Memory>
    ensures { OnOk result (to.new.items ≡ to.old.items ++ functions_in desc.now) }
{
    if let ImportDesc::Func(t) = desc {
        to.push(*t)?;
    }
    Ok(())
}

fn put_table(to: &mut Vec<ValType>, desc: &ImportDesc) -> Result<(), Memory>
    ensures { OnOk result (to.new.items ≡ to.old.items ++ entries (tables_in desc.now)) }
{
    if let ImportDesc::Table(ty) = desc {
        to.push(ty.elem)?;
    }
    Ok(())
}

fn put_global(to: &mut Vec<GlobalType>, desc: &ImportDesc) -> Result<(), Memory>
    ensures { OnOk result (to.new.items ≡ to.old.items ++ globals_in desc.now) }
{
    if let ImportDesc::Global(ty) = desc {
        to.push(*ty)?;
    }
    Ok(())
}

fn functions_of(alloc: Global, m: &Module) -> Result<Vec<u32>, Memory>
    ensures { IfOk result (λ v. v.items ≡ function_space m.now) }
{
    let mut functions = Vec::new(alloc);
    for import in m.imports.items() {
        put_function(&mut functions, &import.desc)?;
    }
    functions.extend_from_slice(m.funcs.items())?;
    Ok(functions)
}

fn imported_tables(alloc: Global, imports: &[Import]) -> Result<Vec<ValType>, Memory>
    ensures { IfOk result (λ v. v.items ≡ entries (imports_of tables_in imports.now)) }
{
    let mut tables = Vec::new(alloc);
    for import in imports {
        put_table(&mut tables, &import.desc)?;
    }
    Ok(tables)
}

fn put_tables(to: &mut Vec<ValType>, tables: &[TableType]) -> Result<(), Memory>
    ensures { OnOk result (to.new.items ≡ to.old.items ++ entries tables.now) }
{
    for ty in tables {
        to.push(ty.elem)?;
    }
    Ok(())
}

fn imported_globals(alloc: Global, imports: &[Import]) -> Result<Vec<GlobalType>, Memory>
    ensures { IfOk result (λ v. v.items ≡ imports_of globals_in imports.now) }
{
    let mut globals = Vec::new(alloc);
    for import in imports {
        put_global(&mut globals, &import.desc)?;
    }
    Ok(globals)
}

fn put_globals(to: &mut Vec<GlobalType>, globals: &[GlobalDef]) -> Result<(), Memory>
    ensures { OnOk result (to.new.items ≡ to.old.items ++ map type_of_global globals.now) }
{
    for global in globals {
        to.push(global.ty)?;
    }
    Ok(())
}

fn is_memory(desc: &ImportDesc) -> usize
    ensures { result ≡ length (memories_in desc.now) }
{
    match desc {
        ImportDesc::Space(_) => 1,
        _ => 0,
    }
}

fn imported_memories(imports: &[Import]) -> usize
    ensures told { result ≡ length (imports_of memories_in imports.now) }
    ensures few { result ≤ length imports.now }
{
    let mut count: usize = 0;
    for import in imports {
        count += is_memory(&import.desc);
    }
    count
}

fn elems_of(alloc: Global, elems: &[Elem]) -> Result<Vec<ValType>, Memory>
    ensures { IfOk result (λ v. v.items ≡ map item_type_of elems.now) }
{
    let mut types = Vec::new(alloc);
    for elem in elems {
        types.push(item_type(&elem.items))?;
    }
    Ok(types)
}

/// The index spaces of a module.
pub(crate) fn spaces_of(alloc: Global, m: &Module) -> Result<Spaces, Memory>
    requires { length m.now.imports + length m.now.memories < 2 ^ 64 }
    ensures { IfOk result (λ s. AreSpaces m.now s) }
{
    let functions = functions_of(alloc, m)?;
    let mut tables = imported_tables(alloc, m.imports.items())?;
    put_tables(&mut tables, m.tables.items())?;
    let memories = imported_memories(m.imports.items()) + m.memories.items().len();
    let imported = imported_globals(alloc, m.imports.items())?;
    let mut globals = imported_globals(alloc, m.imports.items())?;
    put_globals(&mut globals, m.globals.items())?;
    let elems = elems_of(alloc, m.elems.items())?;
    Ok(Spaces {
        functions,
        tables,
        memories,
        imported,
        globals,
        elems,
    })
}
