// Functions that a member itself defines, by the names under which it exports them.
ghost use Rattle.std.specs.Prelude.{◌≡◌, ◌<◌, length};
ghost use Rattle.spec_loading.specs.spec_binary.Indices.{is_nullary, function_type, nullary_at};
ghost use Rattle.spec_loading.specs.spec_binary.IndexSpaces.{function_space};
ghost use Rattle.spec_loading.specs.spec_linking.Definitions as defined;
ghost use Rattle.spec_loading.specs.spec_linking.Links as links;
ghost use Rattle.dyl_link.specs.Answers.{Tells};

use dyl_slots::dyl_names::ill_typed;
use dyl_slots::wasm_check::{Checked, exported_function};
use spec_loading::spec_linking::{Kind, LinkFault};
use std::alloc::Global;
use wasm_form::{FuncType, Module};

fn is_nullary(ty: &FuncType) -> bool
    ensures { result ≡ is_nullary ty.now }
{
    ty.params.items().is_empty() && ty.results.items().is_empty()
}

// Whether a function has no parameters and results.
fn nullary_at(checked: &Checked, f: u32) -> bool
    requires { f < length (function_space checked.now) }
    ensures { result ≡ nullary_at (function_type checked.now f) }
{
    is_nullary(checked.func_type(f))
}

// A function of its own that the loader calls has no parameters and results.
pub(crate) fn loader_call(
    alloc: Global,
    m: u32,
    checked: &Checked,
    name: &str,
) -> Result<(), LinkFault>
    ensures { Tells result (links.loader_call_fault m checked.now name.now) }
{
    match exported_function(checked.module(), name) {
        Some(f) => ill_typed(alloc, nullary_at(checked, f), m, Kind::Function, name),
        None => Ok(()),
    }
}

// The function of its own that a module exports as `_start`, or else the one that it exports as `main`.
fn entry_function(wasm: &Module) -> Option<u32>
    ensures { result ≡ defined.entry_function wasm.now }
{
    match exported_function(wasm, "_start") {
        Some(f) => Some(f),
        None => exported_function(wasm, "main"),
    }
}

// The entry of a module.
pub(crate) fn entry_of(checked: &Checked) -> Option<u32>
    ensures { result ≡ defined.entry_of checked.now }
{
    match entry_function(checked.module()) {
        Some(f) if nullary_at(checked, f) => Some(f),
        Some(_) | None => None,
    }
}
