// Functions that a member itself defines, and functions of the loader.
ghost use Rattle.std.specs.Prelude.{◌≡◌, ◌+◌, ◌^◌, ◌<◌, ◌++◌, length, map, OnOk};
ghost use Rattle.std.specs.List.{range_with_len};
ghost use Rattle.wasm_form.specs.declared.runtime.Ref.TheVariants.{Own};
ghost use Rattle.spec_loading.specs.spec_linking.Definitions.{named_in, loader_names};
ghost use Rattle.spec_loading.specs.Members as members;
ghost use Rattle.dyl_imports.specs.Uses.{use_value, shares_function};

use crate::uses::Use;
use wasm_form::{Memory, Ref};

// So many functions of its own, numbered after those that are there.
pub(crate) fn add_own(refs: &mut Vec<Ref>, m: u32, count: usize) -> Result<(), Memory>
    requires { length refs.old.items + count < 2 ^ 32 }
    ensures { OnOk result (refs.new.items ≡ refs.old.items ++ map (Own m) (range_with_len (length refs.old.items) count)) }
{
    for k in 0..count {
        let _k = k;
        let func = refs.len() as u32;
        refs.push(Ref::Own { unit: m, func })?;
    }
    Ok(())
}

// Whether a name is that of a function of the loader.
pub(crate) fn is_loader_name(name: &str) -> bool
    ensures { result ≡ members.is_loader (named_in loader_names name.now) }
{
    match name {
        "dlopen" | "dlsym" | "dlclose" | "dlerror" => true,
        _ => false,
    }
}

// Whether an import that stands for this is a function or the slot of one, by a name that all members share.
pub(crate) fn shares_function(stands_for: Use) -> bool
    ensures { result ≡ shares_function (use_value stands_for) }
{
    match stands_for {
        Use::EnvFunction(_) | Use::SlotCell => true,
        Use::SharedMemory
        | Use::SharedTable
        | Use::StackPointer
        | Use::MemoryBase
        | Use::TableBase
        | Use::DataCell
        | Use::ModuleFunction(_)
        | Use::Other => false,
    }
}
