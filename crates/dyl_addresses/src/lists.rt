// Lists of addresses, member by member.
ghost use Rattle.std.specs.Prelude.{◌≡◌, ◌<◌, ◌≤◌, ◌+◌, ◌-◌, ◌^◌, ◌++◌, map, IfOk, OnOk};
ghost use Rattle.std.specs.List.{range_with_len};
ghost use Rattle.spec_loading.specs.spec_binary.IndexSpaces.{imports_of, tables_in};
ghost use Rattle.dyl_addresses.specs.Sets.{module_of};
ghost use Rattle.dyl_addresses.specs.Lists.{size_in, numbers_end, numbered, table_lists, shared_tables};

use dyl_link::dyl_search::Member;
use std::alloc::Global;
use wasm_form::{Import, ImportDesc, List, Memory, Module};

/// What members define, one kind of it.
#[derive(Clone, Copy)]
pub enum Space {
    Types,
    Codes,
    Tables,
    Elems,
    Datas,
}

impl Space {
    /// How much of it a module defines.
    pub fn size(self, m: &Module) -> usize
        ensures { result ≡ size_in self m.now }
    {
        match self {
            Space::Types => m.types.items().len(),
            Space::Codes => m.codes.items().len(),
            Space::Tables => m.tables.items().len(),
            Space::Elems => m.elems.items().len(),
            Space::Datas => m.datas.items().len(),
        }
    }
}

// The number after so many.
pub(crate) fn end_of(start: u32, count: usize) -> u32
    requires { start + count < 2 ^ 32 }
    ensures { result ≡ start + count }
{
    start + count as u32
}

fn put_range(to: &mut Vec<u32>, start: u32, end: u32) -> Result<(), Memory>
    requires { start ≤ end }
    ensures { OnOk result (to.new.items ≡ to.old.items ++ range_with_len start (end - start)) }
{
    for n in start..end {
        to.push(n)?;
    }
    Ok(())
}

fn range(alloc: Global, start: u32, end: u32) -> Result<List<u32>, Memory>
    requires { start ≤ end }
    ensures { IfOk result (λ list. list ≡ range_with_len start (end - start)) }
{
    let mut list = Vec::new(alloc);
    put_range(&mut list, start, end)?;
    Ok(List::of(list))
}

/// So many numbers for each member as it defines, from a number on. `Memory` where no memory could be had.
pub fn numbered(
    alloc: Global,
    members: &[Member],
    space: Space,
    start: u32,
) -> Result<Vec<List<u32>>, Memory>
    requires { numbers_end (size_in space) start (map module_of members.now) < 2 ^ 32 }
    ensures { IfOk result (λ v. v.items ≡ numbered (size_in space) start (map module_of members.now)) }
{
    let mut lists = Vec::new(alloc);
    let mut next = start;
    for member in members {
        let end = end_of(next, space.size(member.checked.module()));
        let list = range(alloc, next, end)?;
        lists.push(list)?;
        next = end;
    }
    Ok(lists)
}

fn put_shared(to: &mut Vec<u32>, desc: &ImportDesc) -> Result<(), Memory>
    ensures { OnOk result (to.new.items ≡ to.old.items ++ map (λ t. 0) (tables_in desc.now)) }
{
    if let ImportDesc::Table(_) = desc {
        to.push(0)?;
    }
    Ok(())
}

fn put_all_shared(to: &mut Vec<u32>, imports: &[Import]) -> Result<(), Memory>
    ensures { OnOk result (to.new.items ≡ to.old.items ++ map (λ t. 0) (imports_of tables_in imports.now)) }
{
    for import in imports {
        put_shared(to, &import.desc)?;
    }
    Ok(())
}

fn table_list(alloc: Global, m: &Module, start: u32, end: u32) -> Result<List<u32>, Memory>
    requires { start ≤ end }
    ensures { IfOk result (λ list. list ≡ shared_tables m.now ++ range_with_len start (end - start)) }
{
    let mut list = Vec::new(alloc);
    put_all_shared(&mut list, m.imports.items())?;
    put_range(&mut list, start, end)?;
    Ok(List::of(list))
}

// The addresses of the tables of each member, of which the own ones come from an address on.
pub(crate) fn table_lists(
    alloc: Global,
    members: &[Member],
    start: u32,
) -> Result<Vec<List<u32>>, Memory>
    requires { numbers_end (size_in Space.Tables) start (map module_of members.now) < 2 ^ 32 }
    ensures { IfOk result (λ v. v.items ≡ table_lists start (map module_of members.now)) }
{
    let mut lists = Vec::new(alloc);
    let mut next = start;
    for member in members {
        let wasm = member.checked.module();
        let end = end_of(next, Space::Tables.size(wasm));
        let list = table_list(alloc, wasm, next, end)?;
        lists.push(list)?;
        next = end;
    }
    Ok(lists)
}
