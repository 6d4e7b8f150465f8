// The types of imported functions.
ghost use Rattle.std.specs.Prelude.{◌≡◌};
ghost use Rattle.std.specs.Option.{option_copied};
ghost use Rattle.spec_loading.specs.spec_execution.Views.{loader_type};
ghost use Rattle.spec_loading.specs.spec_binary.SameTypes.{same_function_type};
ghost use Rattle.spec_loading.specs.spec_linking.LinkedSets.{LinkedSet};
ghost use Rattle.spec_loading.specs.spec_linking.Definitions.{env_name};
ghost use Rattle.spec_loading.specs.spec_linking.Links as links;
ghost use Rattle.dyl_slots.specs.dyl_scope.Scopes.{meaning_of};
ghost use Rattle.dyl_slots.specs.host_table.Names.{match_of};
ghost use Rattle.dyl_slots.specs.dyl_imports.Kept.{AreImportsOf};
ghost use Rattle.dyl_link.specs.Answers.{Tells};

use dyl_slots::dyl_imports::Imports;
use dyl_slots::dyl_names::{ill_typed, unresolved};
use dyl_slots::dyl_scope::Def;
use dyl_slots::host_table::{HostMatch, HostNames};
use spec_loading::spec_linking::{Kind, LinkFault};
use std::alloc::Global;
use wasm_form::{FuncType, LoaderCall, ValType};

// The type of a function of the loader: parameters and a result of i32.
fn is_loader_type(call: LoaderCall, ty: &FuncType) -> bool
    ensures { result ≡ same_function_type (loader_type call) ty.now }
{
    let params = ty.params.items();
    let fit = match call {
        LoaderCall::Dlopen | LoaderCall::Dlsym => { matches!(params, [ValType::I32, ValType::I32]) }
        LoaderCall::Dlclose => matches!(params, [ValType::I32]),
        LoaderCall::Dlerror => params.is_empty(),
    };
    fit && matches!(ty.results.items(), [ValType::I32])
}

// A function of the loader has the type that is wanted.
fn loader_fits(call: LoaderCall, wanted: Option<&FuncType>) -> bool
    ensures { result ≡ links.is_type (option_copied wanted.entry) (loader_type call) }
{
    match wanted {
        Some(ty) => is_loader_type(call, ty),
        None => false,
    }
}

// A function that is there has the type that is wanted.
fn fits(found: Option<&FuncType>, wanted: Option<&FuncType>) -> bool
    ensures { result ≡ links.is_type_of (option_copied wanted.entry) (option_copied found.entry) }
{
    match (found, wanted) {
        (Some(found), Some(wanted)) => found == wanted,
        (Some(_), None) | (None, _) => false,
    }
}

// What is declared of a host function, against the type that is wanted.
fn covers(names: &HostNames, from: &str, name: &str, wanted: Option<&FuncType>) -> HostMatch
    ensures { match_of result ≡ links.covers names.now from.now name.now (option_copied wanted.entry) }
{
    match wanted {
        Some(ty) => names.find(from, name, ty),
        None => HostMatch::OtherType,
    }
}

// The first import of a host function gives it the type that is wanted.
fn has_first_type(imports: &Imports, from: &str, name: &str, wanted: Option<&FuncType>) -> bool
    ensures { (L : LinkedSet) → AreImportsOf L imports.now → result ≡ links.has_first_type L from.now name.now (option_copied wanted.entry) }
{
    fits(imports.host_type(from, name), wanted)
}

// The type that an import gives a host function of `env` is covered, and is that of its first import.
fn is_host_type(imports: &Imports, name: &str, wanted: Option<&FuncType>) -> bool
    ensures { (L : LinkedSet) → AreImportsOf L imports.now → result ≡ links.is_host_type L env_name name.now (option_copied wanted.entry) }
{
    match covers(imports.declared(), "env", name, wanted) {
        HostMatch::Fits => has_first_type(imports, "env", name, wanted),
        HostMatch::Unknown | HostMatch::OtherType => false,
    }
}

// An imported function of `env`, with its definition.
pub(crate) fn env_function(
    alloc: Global,
    imports: &Imports,
    m: u32,
    name: &str,
    wanted: Option<&FuncType>,
    found: Def,
) -> Result<(), LinkFault>
    ensures { (L : LinkedSet) → AreImportsOf L imports.now → Tells result (links.function_fault L m name.now (option_copied wanted.entry) (meaning_of found)) }
{
    let holds = match found {
        Def::Loader(call) => loader_fits(call, wanted),
        Def::Function { module, func } => fits(imports.func_type(module, func), wanted),
        Def::Host(_) => is_host_type(imports, name, wanted),
        Def::Weak => true,
        Def::HeapBase | Def::HeapEnd | Def::Datum { .. } => false,
        Def::Nothing => return unresolved(alloc, m, Kind::Function, name),
    };
    ill_typed(alloc, holds, m, Kind::Function, name)
}

// An imported function of another module.
pub(crate) fn host_function(
    alloc: Global,
    imports: &Imports,
    m: u32,
    from: &str,
    name: &str,
    wanted: Option<&FuncType>,
) -> Result<(), LinkFault>
    ensures { (L : LinkedSet) → AreImportsOf L imports.now → Tells result (links.host_fault L m from.now name.now (option_copied wanted.entry)) }
{
    let holds = match covers(imports.declared(), from, name, wanted) {
        HostMatch::Unknown => return unresolved(alloc, m, Kind::Function, name),
        HostMatch::Fits => has_first_type(imports, from, name, wanted),
        HostMatch::OtherType => false,
    };
    ill_typed(alloc, holds, m, Kind::Function, name)
}
