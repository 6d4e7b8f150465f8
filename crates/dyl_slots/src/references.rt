// The functions outside the members that cells hold slots of.
ghost use Rattle.std.specs.Prelude.{◌≡◌, ◌++◌, ◌<◌, ◌≤◌, length, map, IfOk, OnOk};
ghost use Rattle.std.specs.List.{filter_map};
ghost use Rattle.spec_loading.specs.spec_linking.declared.fault.Kind.TheVariants as kinds;
ghost use Rattle.spec_loading.specs.spec_linking.Definitions.{env_name};
ghost use Rattle.spec_loading.specs.spec_linking.LinkedSets.{LinkedSet, definition};
ghost use Rattle.spec_loading.specs.spec_linking.LinkedSets as linked;
ghost use Rattle.spec_loading.specs.spec_linking.Slots as slots;
ghost use Rattle.dyl_imports.specs.dyl_search.Gathers.{member_of};
ghost use Rattle.dyl_imports.specs.Kept.{AreImportsOf};

use dyl_imports::dyl_scope::Def;
use dyl_imports::{Imports, Use, use_of};
use spec_loading::spec_linking::Kind;
use std::alloc::Global;
use wasm_form::{Import, Memory, Ref};

// The host function of a name of `env`.
fn host_ref(imports: &Imports, name: &str) -> Option<Ref>
    ensures { (L : LinkedSet) → AreImportsOf L imports.now → result ≡ linked.host_ref L env_name name.now }
{
    match imports.host("env", name) {
        Some(n) => Some(Ref::Host(n)),
        None => None,
    }
}

// The function outside the members that a name of a slot is.
fn named_ref(imports: &Imports, m: u32, name: &str) -> Option<Ref>
    requires { m < length imports.now.known.symbols.now.names }
    ensures { (L : LinkedSet) → AreImportsOf L imports.now → result ≡ slots.outside_ref L name.now (definition L m kinds.Func name.now) }
{
    match imports.definition(m, Kind::Func, name) {
        Def::Loader(call) => Some(Ref::Loader(call)),
        Def::Host(_) => host_ref(imports, name),
        Def::HeapBase
        | Def::HeapEnd
        | Def::Function { .. }
        | Def::Datum { .. }
        | Def::Weak
        | Def::Nothing => None,
    }
}

fn outside_ref(imports: &Imports, m: u32, i: &Import) -> Option<Ref>
    requires { m < length imports.now.known.symbols.now.names }
    ensures { (L : LinkedSet) → AreImportsOf L imports.now → result ≡ slots.outside_of_import L m i.now }
{
    match use_of(i) {
        Use::SlotCell => named_ref(imports, m, i.field.as_str()),
        _ => None,
    }
}

fn add_outside(
    refs: &mut Vec<Ref>,
    imports: &Imports,
    m: u32,
    list: &[Import],
) -> Result<(), Memory>
    requires { m < length imports.now.known.symbols.now.names }
    ensures { OnOk result ((L : LinkedSet) → AreImportsOf L imports.now → refs.new.items ≡ refs.old.items ++ filter_map (slots.outside_of_import L m) list.now) }
{
    for i in list {
        if let Some(r) = outside_ref(imports, m, i) {
            refs.push(r)?;
        }
    }
    Ok(())
}

// Those of all members, in the order of imports.
pub(crate) fn outside_refs(alloc: Global, imports: &Imports) -> Result<Vec<Ref>, Memory>
    requires names { length imports.now.known.symbols.now.names ≡ length imports.now.known.members.now }
    requires few { length imports.now.known.members.now ≤ 256 }
    ensures { IfOk result (λ v. (L : LinkedSet) → AreImportsOf L imports.now → L.set.members ≡ map member_of imports.now.known.members.now → v.items ≡ slots.outside_refs L) }
{
    let members = imports.members();
    let mut refs = Vec::new(alloc);
    for m in 0..members.len() {
        add_outside(
            &mut refs,
            imports,
            m as u32,
            members[m].checked.module().imports.items(),
        )?;
    }
    Ok(refs)
}
