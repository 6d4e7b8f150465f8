// The functions that the numbers of a member name.
use crate::imports::Imports;
use crate::own::{add_own, is_loader_name, shares_function};
use crate::uses::{Use, use_of};
use dyl_scope::Def;
use spec_loading::spec_linking::Kind;
use std::alloc::Global;
use wasm_form::{Import, ImportDesc, List, Memory, Ref};

impl<'a> Imports<'a> {
    ghost use Rattle.std.specs.Prelude.{◌≡◌, ◌<◌, ◌≤◌, ◌+◌, ◌^◌, ◌++◌, ◌∷◌, [], ℕ, length, slice_get, None, IfOk, OnOk};
    ghost use Rattle.std.specs.List.{list_any};
    ghost use Rattle.spec_loading.specs.spec_binary.IndexSpaces.{functions_in};
    ghost use Rattle.spec_loading.specs.spec_linking.Imports.{importing, use_of};
    ghost use Rattle.spec_loading.specs.spec_linking.LinkedSets as linked;
    ghost use Rattle.spec_loading.specs.spec_linking.LinkedSets.{LinkedSet};
    ghost use Rattle.spec_loading.specs.spec_linking.declared.fault.Kind.TheVariants as kind;
    ghost use Rattle.spec_loading.specs.spec_linking.Links.{members_fault};
    ghost use Rattle.spec_loading.specs.Members as members;
    ghost use Rattle.dyl_imports.specs.Refs.{imported_refs};
    ghost use Rattle.dyl_imports.specs.Kept.{AreImportsOf};

    // A host function.
    fn host_ref(&self, from: &str, name: &str) -> Option<Ref>
        ensures { (L : LinkedSet) → AreImportsOf L self.now → result ≡ linked.host_ref L from.now name.now }
    {
        match self.host(from, name) {
            Some(n) => Some(Ref::Host(n)),
            None => None,
        }
    }

    // What function f of member m is, which imports a name of `env`.
    fn env_ref(&self, m: u32, f: u32, name: &str) -> Option<Ref>
        requires { m < length self.now.known.symbols.now.names }
        ensures { (L : LinkedSet) → AreImportsOf L self.now → result ≡ linked.defined_ref L m f name.now (linked.definition L m kind.Function name.now) }
    {
        match self.definition(m, Kind::Function, name) {
            Def::Loader(call) => Some(Ref::Loader(call)),
            Def::Function { module, func } => Some(Ref::Own { unit: module, func }),
            Def::Host(_) => self.host_ref("env", name),
            Def::Weak => Some(Ref::Stub { unit: m, func: f }),
            Def::HeapBase | Def::HeapEnd | Def::Datum { .. } | Def::Nothing => None,
        }
    }

    // What function f of member m is, which is imported so.
    fn imported_ref(&self, m: u32, f: u32, i: &Import) -> Option<Ref>
        requires { m < length self.now.known.symbols.now.names }
        ensures { (L : LinkedSet) → AreImportsOf L self.now → result ≡ linked.imported_ref L m f i.now }
    {
        match use_of(i) {
            Use::EnvFunction(_) => self.env_ref(m, f, i.field.as_str()),
            Use::ModuleFunction(_) => self.host_ref(i.module.as_str(), i.field.as_str()),
            Use::SharedMemory
            | Use::SharedTable
            | Use::StackPointer
            | Use::MemoryBase
            | Use::TableBase
            | Use::DataCell
            | Use::SlotCell
            | Use::Other => None,
        }
    }

    // What an imported function is, after those before it; one that is nothing is a stub, since no member has a fault.
    fn add_imported(&self, refs: &mut Vec<Ref>, m: u32, i: &Import) -> Result<(), Memory>
        requires inside { m < length self.now.known.symbols.now.names }
        requires few { length refs.old.items < 2 ^ 32 }
        ensures exact { OnOk result ((L : LinkedSet) → AreImportsOf L self.now → refs.new.items ≡ refs.old.items ++ imported_refs L m (length refs.old.items) (importing functions_in (i.now ∷ []))) }
        ensures few { OnOk result (length refs.new.items ≤ length refs.old.items + 1) }
    {
        match i.desc {
            ImportDesc::Func(_) => {
                let f = refs.len() as u32;
                let found = self.imported_ref(m, f, i);
                refs.push(found.unwrap_or(Ref::Stub { unit: m, func: f }))?;
                Ok(())
            }
            ImportDesc::Table(_) | ImportDesc::Space(_) | ImportDesc::Global(_) => Ok(()),
        }
    }

    // What the imported functions of member m are.
    fn imported(&self, alloc: Global, m: u32, imports: &[Import]) -> Result<Vec<Ref>, Memory>
        requires inside { m < length self.now.known.symbols.now.names }
        requires few { length imports.now < 2 ^ 32 }
        ensures exact { IfOk result (λ refs. (L : LinkedSet) → AreImportsOf L self.now → refs.items ≡ imported_refs L m 0 (importing functions_in imports.now)) }
        ensures few { IfOk result (λ refs. length refs.items ≤ length imports.now) }
    {
        let mut refs = Vec::new(alloc);
        for i in imports {
            self.add_imported(&mut refs, m, i)?;
        }
        Ok(refs)
    }

    /// What each function of member m is, by their numbers, where no member has a fault.
    pub fn functions(&self, alloc: Global, m: u32) -> Result<List<Ref>, Memory>
        requires inside { m < length self.now.known.members.now }
        requires count { length self.now.known.symbols.now.names ≡ length self.now.known.members.now }
        ensures { IfOk result (λ refs. (L : LinkedSet) → AreImportsOf L self.now → members_fault L 0 L.set.members ≡ None → (f : ℕ) → slice_get refs f ≡ linked.function_ref L m f) }
    {
        let wasm = self.known.members[m as usize].checked.module();
        let mut refs = self.imported(alloc, m, wasm.imports.items())?;
        add_own(&mut refs, m, wasm.funcs.items().len())?;
        Ok(List::of(refs))
    }

    // Whether an import of member m names a function of the loader.
    #[tactic(auto, using(crate::proofs::ByLoader::loader_by_name))]
    fn names_loader(&self, m: u32, i: &Import) -> bool
        requires { m < length self.now.known.symbols.now.names }
        ensures { (L : LinkedSet) → AreImportsOf L self.now → result ≡ members.loader_as L m i.now (use_of i.now) }
    {
        let _self = self;
        is_loader_name(i.field.as_str()) && shares_function(use_of(i))
    }

    // Whether one of these imports of member m does.
    fn one_names_loader(&self, m: u32, imports: &[Import]) -> bool
        requires { m < length self.now.known.symbols.now.names }
        ensures { (L : LinkedSet) → AreImportsOf L self.now → result ≡ list_any (λ i. members.loader_as L m i (use_of i)) imports.now }
    {
        for i in imports {
            if self.names_loader(m, i) {
                return true;
            }
        }
        false
    }

    /// Whether a member imports a function of the loader, as a function or by its slot.
    pub fn uses_loader(&self) -> bool
        requires few { length self.now.known.members.now ≤ 256 }
        requires count { length self.now.known.symbols.now.names ≡ length self.now.known.members.now }
        ensures { (L : LinkedSet) → AreImportsOf L self.now → result ≡ members.uses_loader L }
    {
        for m in 0..self.known.members.len() {
            let wasm = self.known.members[m].checked.module();
            if self.one_names_loader(m as u32, wasm.imports.items()) {
                return true;
            }
        }
        false
    }
}
