// The bases of a member, among its imported globals.
ghost use Rattle.std.specs.Prelude.{◌≡◌, ◌++◌, ◌<◌, length, map, IfOk, OnOk};
ghost use Rattle.spec_loading.specs.spec_binary.IndexSpaces.{globals_in};
ghost use Rattle.spec_loading.specs.spec_linking.Imports as imports;
ghost use Rattle.dyl_link.specs.dyl_imports.Uses.{use_value};
ghost use Rattle.dyl_addresses.specs.Bases.{AreBases, base_of, bases_from};

use dyl_link::Linked;
use dyl_link::dyl_imports::{Use, use_of};
use std::alloc::Global;
use wasm_form::{Import, ImportDesc, Memory};

fn base_of(u: Use, memory: u32, table: u32) -> Option<u32>
    ensures { result ≡ base_of memory table (use_value u) }
{
    match u {
        Use::MemoryBase => Some(memory),
        Use::TableBase => Some(table),
        _ => None,
    }
}

fn put_base(to: &mut Vec<Option<u32>>, i: &Import, memory: u32, table: u32) -> Result<(), Memory>
    ensures { OnOk result (to.new.items ≡ to.old.items ++ map (λ ty. base_of memory table (imports.use_of i.now)) (globals_in i.now.desc)) }
{
    if let ImportDesc::Global(_) = i.desc {
        to.push(base_of(use_of(i), memory, table))?;
    }
    Ok(())
}

/// The bases that imported globals are, by their numbers, where the member has these. `Memory` where no memory could be had.
pub fn bases_from(
    alloc: Global,
    imports: &[Import],
    memory: u32,
    table: u32,
) -> Result<Vec<Option<u32>>, Memory>
    ensures { IfOk result (λ v. v.items ≡ bases_from memory table imports.now) }
{
    let mut bases = Vec::new(alloc);
    for i in imports {
        put_base(&mut bases, i, memory, table)?;
    }
    Ok(bases)
}

/// The bases that the imported globals of a member are, by their numbers. `Memory` where no memory could be had.
pub fn bases_of(alloc: Global, linked: &Linked, m: u32) -> Result<Vec<Option<u32>>, Memory>
    requires member { m < length linked.now.set.members }
    ensures { IfOk result (λ v. AreBases linked.now m v.items) }
{
    let imports = linked.module(m).imports.items();
    let memory = linked.memory_base(m);
    let table = linked.table_base(m);
    let bases = bases_from(alloc, imports, memory, table)?;
    Ok(bases)
}
