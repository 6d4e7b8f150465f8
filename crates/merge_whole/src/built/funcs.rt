// The functions of the merged module, by the numbers of their types.
ghost use Rattle.std.specs.Prelude.{◌≡◌, ◌≤◌, ◌<◌, ◌^◌, ◌++◌, ◌∷◌, [], length, map, IfOk, OnOk};
ghost use Rattle.merge_index.specs.Kept.{numbers_in};
ghost use Rattle.merge_module.specs.MergedModule.{with_loader, nullary_number, merged_funcs};
ghost use Rattle.merge_whole.specs.Counts.{members_of};
ghost use Rattle.merge_whole.specs.Built.{joined, funcs_of, stub_types_of, four_of, one_of, funcs_for_loader, generated_funcs_in, funcs_in};

use crate::built::imports::nullary_number;
use crate::built::stubs::{imported_types, put_stub_types};
use dyl_link::Linked;
use dyl_link::dyl_search::Member;
use merge_index::Numbers;
use std::alloc::Global;
use wasm_form::{List, Memory};

fn put_funcs(to: &mut Vec<u32>, n: &Numbers, m: u32, funcs: &[u32]) -> Result<(), Memory>
    ensures { OnOk result (to.new.items ≡ to.old.items ++ map ((numbers_in n.now).ty m) funcs.now) }
{
    for t in funcs {
        to.push(n.ty(m, *t))?;
    }
    Ok(())
}

fn put_members(to: &mut Vec<u32>, n: &Numbers, members: &[Member]) -> Result<(), Memory>
    requires few { length members.now ≤ 256 }
    ensures { OnOk result (to.new.items ≡ to.old.items ++ joined (funcs_of (numbers_in n.now)) 0 members.now) }
{
    let mut m: u32 = 0;
    for member in members {
        put_funcs(to, n, m, member.checked.module().funcs.items())?;
        m += 1;
    }
    Ok(())
}

fn put_stubs(
    alloc: Global,
    to: &mut Vec<u32>,
    linked: &Linked,
    n: &Numbers,
    members: &[Member],
) -> Result<(), Memory>
    requires few { length members.now ≤ 256 }
    ensures { OnOk result (to.new.items ≡ to.old.items ++ joined (stub_types_of linked.now (numbers_in n.now)) 0 members.now) }
{
    let mut m: u32 = 0;
    for member in members {
        let types = imported_types(alloc, member.checked.module().imports.items())?;
        put_stub_types(to, linked, n, m, types.as_slice())?;
        m += 1;
    }
    Ok(())
}

fn put_four(to: &mut Vec<u32>, t: u32) -> Result<(), Memory>
    ensures { OnOk result (to.new.items ≡ to.old.items ++ (t ∷ t ∷ t ∷ t ∷ [])) }
{
    to.push(t)?;
    to.push(t)?;
    to.push(t)?;
    to.push(t)?;
    Ok(())
}

fn put_phases(to: &mut Vec<u32>, t: u32, members: &[Member]) -> Result<(), Memory>
    ensures { OnOk result (to.new.items ≡ to.old.items ++ joined (four_of t) 0 members.now) }
{
    for _member in members {
        put_four(to, t)?;
    }
    Ok(())
}

// One function for each member.
fn put_each(to: &mut Vec<u32>, t: u32, members: &[Member]) -> Result<(), Memory>
    ensures { OnOk result (to.new.items ≡ to.old.items ++ joined (one_of t) 0 members.now) }
{
    for _member in members {
        to.push(t)?;
    }
    Ok(())
}

// `dlopen`, `dlsym`, `dlclose` and `dlerror`.
fn put_calls(to: &mut Vec<u32>, binary: u32, unary: u32, handle: u32) -> Result<(), Memory>
    ensures { OnOk result (to.new.items ≡ to.old.items ++ (binary ∷ binary ∷ unary ∷ handle ∷ [])) }
{
    to.push(binary)?;
    to.push(binary)?;
    to.push(unary)?;
    to.push(handle)?;
    Ok(())
}

// The functions of the loader and what they call, where the types of generated functions have the numbers from one on.
fn put_loader(to: &mut Vec<u32>, nullary: u32, members: &[Member]) -> Result<(), Memory>
    requires { nullary < 2 ^ 31 }
    ensures { OnOk result (to.new.items ≡ to.old.items ++ funcs_for_loader nullary (members_of members.now)) }
{
    let handle = nullary + 1;
    let unary = nullary + 2;
    let binary = nullary + 3;
    let search = nullary + 4;
    put_each(to, handle, members)?;
    to.push(unary)?;
    put_each(to, search, members)?;
    put_calls(to, binary, unary, handle)?;
    Ok(())
}

// These, where a member uses the loader.
fn put_loading(to: &mut Vec<u32>, nullary: u32, linked: &Linked) -> Result<(), Memory>
    requires { nullary < 2 ^ 31 }
    ensures { OnOk result (to.new.items ≡ to.old.items ++ with_loader linked.now (funcs_for_loader nullary linked.now.set.members)) }
{
    if linked.uses_loader() {
        put_loader(to, nullary, linked.members())?;
    }
    Ok(())
}

fn put_generated(to: &mut Vec<u32>, linked: &Linked) -> Result<(), Memory>
    requires types { nullary_number linked.now < 2 ^ 31 }
    ensures { OnOk result (to.new.items ≡ to.old.items ++ generated_funcs_in linked.now) }
{
    let nullary = nullary_number(linked);
    put_phases(to, nullary, linked.members())?;
    put_loading(to, nullary, linked)?;
    to.push(nullary)?;
    Ok(())
}

fn funcs(alloc: Global, linked: &Linked, n: &Numbers) -> Result<Vec<u32>, Memory>
    requires types { nullary_number linked.now < 2 ^ 31 }
    ensures { IfOk result (λ x. x.items ≡ funcs_in linked.now (numbers_in n.now)) }
{
    linked.links();
    let members = linked.members();
    let mut funcs = Vec::new(alloc);
    put_members(&mut funcs, n, members)?;
    put_stubs(alloc, &mut funcs, linked, n, members)?;
    put_generated(&mut funcs, linked)?;
    Ok(funcs)
}

// Those of the members, the stubs, the phases of each member, those of the loader and the entry function.
pub(crate) fn merged_funcs(alloc: Global, linked: &Linked, n: &Numbers) -> Result<List<u32>, Memory>
    requires types { nullary_number linked.now < 2 ^ 31 }
    ensures { IfOk result (λ x. x ≡ merged_funcs linked.now (numbers_in n.now)) }
{
    let funcs = funcs(alloc, linked, n)?;
    Ok(List::of(funcs))
}
