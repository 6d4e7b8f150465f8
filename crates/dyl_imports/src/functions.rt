// How many functions a member has.
ghost use Rattle.std.specs.Prelude.{◌≡◌, length, map, IfOk};
ghost use Rattle.spec_loading.specs.spec_binary.IndexSpaces.{function_space};
ghost use Rattle.dyl_search.specs.Gathers.{member_of};
ghost use Rattle.dyl_imports.specs.Weak.{function_counts};

use dyl_search::Member;
use std::alloc::Global;
use wasm_check::{Checked, imported_functions};
use wasm_form::Memory;

fn function_count(checked: &Checked) -> usize
    ensures { result ≡ length (function_space checked.now) }
{
    let wasm = checked.module();
    imported_functions(wasm.imports.items()) + wasm.funcs.items().len()
}

// How many functions each member has.
pub(crate) fn counts_of(alloc: Global, members: &[Member]) -> Result<Vec<usize>, Memory>
    ensures { IfOk result (λ counts. counts.items ≡ function_counts (map member_of members.now)) }
{
    let mut counts = Vec::new(alloc);
    for member in members {
        counts.push(function_count(&member.checked))?;
    }
    Ok(counts)
}
