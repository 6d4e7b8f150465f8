// The host functions that the imports of a set stand for, in order.
ghost use Rattle.std.specs.Prelude.{◌≡◌, ◌<◌, ◌≤◌, ◌+◌, ◌^◌, [], length, IfOk, OnOk};
ghost use Rattle.std.specs.List.{flat_map};
ghost use Rattle.std.specs.Option.{option_copied};
ghost use Rattle.spec_loading.specs.spec_linking.Definitions.{env_name};
ghost use Rattle.spec_loading.specs.spec_linking.LinkedSets as linked;
ghost use Rattle.spec_loading.specs.spec_linking.LinkedSets.{LinkedSet};
ghost use Rattle.dyl_scope.specs.Scopes.{meaning_of};
ghost use Rattle.dyl_imports.specs.Hosts.{with_hosts};
ghost use Rattle.dyl_imports.specs.Kept.{IsKnownOf};

use crate::hosts::Hosts;
use crate::known::Known;
use crate::uses::{Use, use_of};
use dyl_scope::Def;
use spec_loading::spec_linking::Kind;
use std::alloc::Global;
use wasm_form::{FuncType, Import, Memory, Module};

// A host function by its module and name, where there is this type.
fn add_typed(
    alloc: Global,
    hosts: &mut Hosts,
    from: &str,
    name: &str,
    ty: Option<&FuncType>,
) -> Result<(), Memory>
    requires { length hosts.old < 2 ^ 32 }
    ensures exact { OnOk result (hosts.new ≡ with_hosts hosts.old (linked.host_named from.now name.now (option_copied ty.entry))) }
    ensures few { OnOk result (length hosts.new ≤ length hosts.old + 1) }
{
    match ty {
        Some(ty) => hosts.add(alloc, from, name, ty),
        None => Ok(()),
    }
}

// The host function of a name of `env` for an import of this kind, if that is how the name is defined.
fn add_defined(
    alloc: Global,
    hosts: &mut Hosts,
    found: Def,
    name: &str,
    ty: Option<&FuncType>,
) -> Result<(), Memory>
    requires { length hosts.old < 2 ^ 32 }
    ensures exact { OnOk result (hosts.new ≡ with_hosts hosts.old (linked.host_defined (meaning_of found) (linked.host_named env_name name.now (option_copied ty.entry)))) }
    ensures few { OnOk result (length hosts.new ≤ length hosts.old + 1) }
{
    match found {
        Def::Host(_) => add_typed(alloc, hosts, "env", name, ty),
        Def::Loader(_)
        | Def::HeapBase
        | Def::HeapEnd
        | Def::Function { .. }
        | Def::Datum { .. }
        | Def::Weak
        | Def::Nothing => Ok(()),
    }
}

// The host function of another module, if it is declared.
fn add_declared(
    alloc: Global,
    hosts: &mut Hosts,
    known: &Known,
    i: &Import,
    ty: Option<&FuncType>,
) -> Result<(), Memory>
    requires { length hosts.old < 2 ^ 32 }
    ensures exact { OnOk result (hosts.new ≡ with_hosts hosts.old (linked.where_declared (linked.is_declared known.now.declared.now i.now.«module» i.now.field) (linked.host_named i.now.«module» i.now.field (option_copied ty.entry)))) }
    ensures few { OnOk result (length hosts.new ≤ length hosts.old + 1) }
{
    if known.is_declared(i.module.as_str(), i.field.as_str()) {
        add_typed(alloc, hosts, i.module.as_str(), i.field.as_str(), ty)
    } else {
        Ok(())
    }
}

// The host function that an import stands for.
fn add_import(
    alloc: Global,
    hosts: &mut Hosts,
    known: &Known,
    m: u32,
    wasm: &Module,
    i: &Import,
) -> Result<(), Memory>
    requires inside { m < length known.now.symbols.now.names }
    requires few { length hosts.old < 2 ^ 32 }
    ensures exact { OnOk result ((L : LinkedSet) → IsKnownOf L known.now → hosts.new ≡ with_hosts hosts.old (linked.host_of_import L m wasm.now i.now)) }
    ensures few { OnOk result (length hosts.new ≤ length hosts.old + 1) }
{
    let name = i.field.as_str();
    match use_of(i) {
        Use::EnvFunction(t) => {
            let found = known.host_definition(m, Kind::Function, name);
            add_defined(
                alloc,
                hosts,
                found,
                name,
                wasm.types.items().get(t as usize),
            )
        }
        Use::ModuleFunction(t) => {
            add_declared(alloc, hosts, known, i, wasm.types.items().get(t as usize))
        }
        Use::SlotCell => {
            let found = known.host_definition(m, Kind::Func, name);
            add_defined(alloc, hosts, found, name, known.declared.typed("env", name))
        }
        Use::SharedMemory
        | Use::SharedTable
        | Use::StackPointer
        | Use::MemoryBase
        | Use::TableBase
        | Use::DataCell
        | Use::Other => Ok(()),
    }
}

fn add_imports(
    alloc: Global,
    hosts: &mut Hosts,
    known: &Known,
    m: u32,
    wasm: &Module,
) -> Result<(), Memory>
    requires inside { m < length known.now.symbols.now.names }
    requires few { length hosts.old + length wasm.now.imports ≤ 2 ^ 32 }
    ensures exact { OnOk result ((L : LinkedSet) → IsKnownOf L known.now → hosts.new ≡ with_hosts hosts.old (flat_map (linked.host_of_import L m wasm.now) wasm.now.imports)) }
    ensures few { OnOk result (length hosts.new ≤ length hosts.old + length wasm.now.imports) }
{
    for i in wasm.imports.items() {
        add_import(alloc, hosts, known, m, wasm, i)?;
    }
    Ok(())
}

// The host functions that the imports of a set stand for, where none is named yet.
fn add_hosts(alloc: Global, hosts: &mut Hosts, known: &Known) -> Result<(), Memory>
    requires none { hosts.old ≡ [] }
    requires few { length known.now.members.now ≤ 256 }
    requires count { length known.now.symbols.now.names ≡ length known.now.members.now }
    ensures { OnOk result ((L : LinkedSet) → IsKnownOf L known.now → hosts.new ≡ linked.hosts_of L) }
{
    for m in 0..known.members.len() {
        let wasm = known.members[m].checked.module();
        add_imports(alloc, hosts, known, m as u32, wasm)?;
    }
    Ok(())
}

// The host functions that the imports of a set stand for.
pub(crate) fn hosts_of(alloc: Global, known: &Known) -> Result<Hosts, Memory>
    requires few { length known.now.members.now ≤ 256 }
    requires count { length known.now.symbols.now.names ≡ length known.now.members.now }
    ensures { IfOk result (λ hosts. (L : LinkedSet) → IsKnownOf L known.now → hosts ≡ linked.hosts_of L) }
{
    let mut hosts = Hosts::new(alloc);
    match add_hosts(alloc, &mut hosts, known) {
        Ok(()) => Ok(hosts),
        Err(memory) => {
            drop(hosts);
            Err(memory)
        }
    }
}
