// What stands for imports that nothing defines.
ghost use Rattle.std.specs.Prelude.{◌≡◌, ◌++◌, ◌∷◌, [], ◌<◌, ◌^◌, length, Some, IfOk, OnOk, if◌then◌else◌};
ghost use Rattle.spec_reading.specs.spec_binary.IndexSpaces.{functions_in, imports_of};
ghost use Rattle.spec_loading.specs.spec_linking.LinkedSets.{function_ref};
ghost use Rattle.merge_index.specs.Kept.{numbers_in};
ghost use Rattle.merge_index.specs.Numbering as numbering;
ghost use Rattle.merge_module.specs.MergedModule.{trap_code};
ghost use Rattle.merge_whole.specs.Built.{stubs_at};

use dyl_link::Linked;
use merge_index::Numbers;
use merge_pieces::trap;
use std::alloc::Global;
use wasm_form::{Code, Import, ImportDesc, Memory, Ref};

fn is_stub(r: Option<Ref>) -> bool
    ensures { result ≡ numbering.is_stub r }
{
    match r {
        Some(Ref::Stub { .. }) => true,
        _ => false,
    }
}

fn put_imported(to: &mut Vec<u32>, desc: &ImportDesc) -> Result<(), Memory>
    ensures { OnOk result (to.new.items ≡ to.old.items ++ functions_in desc.now) }
{
    if let ImportDesc::Func(t) = desc {
        to.push(*t)?;
    }
    Ok(())
}

// The types of imported functions, by their numbers.
pub(crate) fn imported_types(alloc: Global, imports: &[Import]) -> Result<Vec<u32>, Memory>
    ensures { IfOk result (λ x. x.items ≡ imports_of functions_in imports.now) }
{
    let mut types = Vec::new(alloc);
    for import in imports {
        put_imported(&mut types, &import.desc)?;
    }
    Ok(types)
}

fn put_stub_type(
    to: &mut Vec<u32>,
    linked: &Linked,
    n: &Numbers,
    m: u32,
    f: u32,
    t: u32,
) -> Result<(), Memory>
    ensures { OnOk result (to.new.items ≡ to.old.items ++ (if numbering.is_stub (function_ref linked.now m f) then (numbers_in n.now).ty m t ∷ [] else [])) }
{
    if is_stub(linked.find_function(m, f)) {
        to.push(n.ty(m, t))?;
    }
    Ok(())
}

// The types of the stubs of a member, by the types of its imports.
pub(crate) fn put_stub_types(
    to: &mut Vec<u32>,
    linked: &Linked,
    n: &Numbers,
    m: u32,
    types: &[u32],
) -> Result<(), Memory>
    requires { length types.now < 2 ^ 32 }
    ensures { OnOk result (to.new.items ≡ to.old.items ++ stubs_at linked.now m ((numbers_in n.now).ty m) 0 types.now) }
{
    let mut f: u32 = 0;
    for t in types {
        put_stub_type(to, linked, n, m, f, *t)?;
        f += 1;
    }
    Ok(())
}

fn put_trap(
    alloc: Global,
    to: &mut Vec<Code>,
    linked: &Linked,
    m: u32,
    f: u32,
) -> Result<(), Memory>
    ensures { OnOk result (to.new.items ≡ to.old.items ++ (if numbering.is_stub (function_ref linked.now m f) then trap_code ∷ [] else [])) }
{
    if is_stub(linked.find_function(m, f)) {
        to.push(trap(alloc)?)?;
    }
    Ok(())
}

// The bodies of the stubs of a member, by the types of its imports.
pub(crate) fn put_traps(
    alloc: Global,
    to: &mut Vec<Code>,
    linked: &Linked,
    m: u32,
    types: &[u32],
) -> Result<(), Memory>
    requires { length types.now < 2 ^ 32 }
    ensures { OnOk result (to.new.items ≡ to.old.items ++ stubs_at linked.now m (λ t. trap_code) 0 types.now) }
{
    let mut f: u32 = 0;
    for _type in types {
        put_trap(alloc, to, linked, m, f)?;
        f += 1;
    }
    Ok(())
}
