// The functions that a module imports; their numbers come first.
ghost use Rattle.std.specs.Prelude.{◌≡◌, ◌++◌, IfOk, OnOk};
ghost use Rattle.spec_safety.specs.spec_binary.IndexSpaces.{functions_in, imports_of};
ghost use Rattle.wasm_instance.specs.Imports.{function_after};

use std::alloc::Global;
use wasm_form::{Import, ImportDesc, Memory, Ref};

fn put_type(to: &mut Vec<u32>, desc: &ImportDesc) -> Result<(), Memory>
    ensures { OnOk result (to.new.items ≡ to.old.items ++ functions_in desc.now) }
{
    if let ImportDesc::Func(t) = desc {
        to.push(*t)?;
    }
    Ok(())
}

/// The numbers of their types.
pub(crate) fn host_types_of(alloc: Global, imports: &[Import]) -> Result<Vec<u32>, Memory>
    ensures { IfOk result (λ v. v.items ≡ imports_of functions_in imports.now) }
{
    let mut types = Vec::new(alloc);
    for import in imports {
        put_type(&mut types, &import.desc)?;
    }
    Ok(types)
}

/// The function that a number names: the first ones are host functions, by their places among the imports.
pub(crate) fn named(imported: u32, f: u32) -> Ref
    ensures { result ≡ function_after imported f }
{
    if f < imported {
        Ref::Host(f)
    } else {
        Ref::Own { unit: 0, func: f }
    }
}
