// The imports of the merged module.
ghost use Rattle.std.specs.Prelude.{◌≡◌, ◌≤◌, ◌+◌, ◌<◌, ◌^◌, length, map, IfOk};
ghost use Rattle.dyl_link.specs.host_table.Names.{host_name_of};
ghost use Rattle.merge_index.specs.Kept.{numbers_in};
ghost use Rattle.merge_index.specs.Numbering.{numbers_of};
ghost use Rattle.merge_module.specs.MergedModule as merged;
ghost use Rattle.merge_module.specs.MergedModule.{nullary_number, generated_functions_types, host_imports, merged_imports};
ghost use Rattle.merge_whole.specs.Built.{joined, types_of, import_of};
ghost use Rattle.merge_whole.specs.Hosts.{number_by};

use crate::built::hosts::{added_types, first_uses, type_number};
use dyl_link::Linked;
use dyl_link::dyl_search::Member;
use dyl_link::host_table::HostName;
use merge_index::Numbers;
use std::alloc::Global;
use wasm_copies::copied_text;
use wasm_form::{FuncType, Import, ImportDesc, List, Memory};

fn type_count(members: &[Member]) -> u32
    requires { length (joined types_of 0 members.now) < 2 ^ 32 }
    ensures { result ≡ length (joined types_of 0 members.now) }
{
    let mut count: u32 = 0;
    for member in members {
        count += member.checked.module().types.items().len() as u32;
    }
    count
}

// How many types generated functions have.
fn generated_count(linked: &Linked) -> u32
    ensures is { result ≡ length (generated_functions_types linked.now) }
    ensures few { result ≤ 5 }
{
    if linked.uses_loader() { 5 } else { 1 }
}

// The number of the first type of generated functions.
pub(crate) fn nullary_number(linked: &Linked) -> u32
    requires { nullary_number linked.now < 2 ^ 31 }
    ensures { result ≡ nullary_number linked.now }
{
    type_count(linked.members())
}

// The number of the first type that is added.
fn first_added(linked: &Linked) -> u32
    requires { nullary_number linked.now < 2 ^ 31 }
    ensures { result ≡ merged.first_added linked.now }
{
    nullary_number(linked) + generated_count(linked)
}

fn host_import(alloc: Global, h: &HostName, t: u32) -> Result<Import, Memory>
    ensures { IfOk result (λ i. i ≡ import_of (host_name_of h.now) t) }
{
    let module = copied_text(alloc, &h.module)?;
    let field = copied_text(alloc, &h.name)?;
    Ok(Import {
        module,
        field,
        desc: ImportDesc::Func(t),
    })
}

// Imports of host functions, by the numbers that are given to their types and by the types that are added.
fn host_imports(
    alloc: Global,
    hosts: &[HostName],
    first: u32,
    added: &[FuncType],
    uses: &[Option<u32>],
) -> Result<Vec<Import>, Memory>
    requires count { length uses.now ≡ length hosts.now }
    requires few { first + length added.now < 2 ^ 32 }
    ensures { IfOk result (λ x. x.items ≡ host_imports (number_by first added.now uses.now) 0 (map host_name_of hosts.now)) }
{
    let mut imports = Vec::new(alloc);
    for e in 0..hosts.len() {
        let t = type_number(first, added, uses[e], &hosts[e].ty);
        imports.push(host_import(alloc, &hosts[e], t)?)?;
    }
    Ok(imports)
}

// The host functions of the set, and the types that are added for them.
pub(crate) fn merged_imports(
    alloc: Global,
    linked: &Linked,
    n: &Numbers,
) -> Result<(List<Import>, Vec<FuncType>), Memory>
    requires { numbers_in n.now ≡ numbers_of linked.now }
    ensures imports { IfOk result (λ x. x.0 ≡ merged_imports linked.now) }
    ensures types { IfOk result (λ x. x.1.items ≡ merged.added_types linked.now) }
{
    linked.links();
    let hosts = linked.hosts();
    let uses = first_uses(alloc, linked, n)?;
    let given = uses.as_slice();
    let added = added_types(alloc, hosts, given)?;
    let first = first_added(linked);
    let imports = host_imports(alloc, hosts, first, added.as_slice(), given)?;
    Ok((List::of(imports), added))
}
