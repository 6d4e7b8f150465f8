// The types of the merged module.
ghost use Rattle.std.specs.Prelude.{◌≡◌, ◌++◌, ◌∷◌, [], IfOk, OnOk};
ghost use Rattle.spec_reading.specs.spec_binary.Indices.{nullary};
ghost use Rattle.merge_module.specs.MergedModule.{generated_functions_types, added_types, merged_types};
ghost use Rattle.merge_whole.specs.Built.{joined, types_of, types_in};

use dyl_link::Linked;
use dyl_link::dyl_search::Member;
use merge_dl::loader_types;
use std::alloc::Global;
use wasm_copies::copied_type;
use wasm_form::{FuncType, List, Memory};

fn put_types(alloc: Global, to: &mut Vec<FuncType>, types: &[FuncType]) -> Result<(), Memory>
    ensures { OnOk result (to.new.items ≡ to.old.items ++ types.now) }
{
    for ty in types {
        to.push(copied_type(alloc, ty)?)?;
    }
    Ok(())
}

fn put_members(alloc: Global, to: &mut Vec<FuncType>, members: &[Member]) -> Result<(), Memory>
    ensures { OnOk result (to.new.items ≡ to.old.items ++ joined types_of 0 members.now) }
{
    for member in members {
        put_types(alloc, to, member.checked.module().types.items())?;
    }
    Ok(())
}

fn put_nullary(alloc: Global, to: &mut Vec<FuncType>) -> Result<(), Memory>
    ensures { OnOk result (to.new.items ≡ to.old.items ++ nullary ∷ []) }
{
    to.push(FuncType {
        params: List::of(Vec::new(alloc)),
        results: List::of(Vec::new(alloc)),
    })?;
    Ok(())
}

// Those of generated functions.
fn put_generated(alloc: Global, to: &mut Vec<FuncType>, linked: &Linked) -> Result<(), Memory>
    ensures { OnOk result (to.new.items ≡ to.old.items ++ generated_functions_types linked.now) }
{
    put_nullary(alloc, to)?;
    if linked.uses_loader() {
        let mut types = loader_types(alloc)?;
        to.append(&mut types)?;
    }
    Ok(())
}

fn types(alloc: Global, linked: &Linked, mut added: Vec<FuncType>) -> Result<Vec<FuncType>, Memory>
    ensures { IfOk result (λ x. x.items ≡ types_in linked.now added.items) }
{
    let mut types = Vec::new(alloc);
    put_members(alloc, &mut types, linked.members())?;
    put_generated(alloc, &mut types, linked)?;
    let mut more = added;
    types.append(&mut more)?;
    Ok(types)
}

// Those of the members, of generated functions, and those that are added for host functions.
pub(crate) fn merged_types(
    alloc: Global,
    linked: &Linked,
    added: Vec<FuncType>,
) -> Result<List<FuncType>, Memory>
    requires { added.items ≡ added_types linked.now }
    ensures { IfOk result (λ x. x ≡ merged_types linked.now) }
{
    let types = types(alloc, linked, added)?;
    Ok(List::of(types))
}
