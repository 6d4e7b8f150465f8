// What is known of a set before its host functions are numbered.
ghost use Rattle.std.specs.Prelude.{◌≡◌, map};
ghost use Rattle.dyl_search.specs.Gathers.{member_of};
ghost use Rattle.dyl_imports.specs.Few.{AreFew};
ghost use Rattle.dyl_imports.specs.Weak.{function_counts};

use crate::declared::{is_declared, is_host_for};
use crate::functions::counts_of;
use crate::weak::{WeakNames, weak_of};
use dyl_scope::{Def, Symbols};
use dyl_search::Member;
use host_table::HostNames;
use spec_loading::spec_linking::Kind;
use std::alloc::Global;
use wasm_form::{FuncType, List, Memory};

// The members of a set, the names that they define, and the host functions that are declared; of each member the names that it notes as
// weak, and how many functions it has; and some type, by which declared names are asked for.
#[derive(Drop)]
pub struct Known<'a> {
    pub members: &'a [Member],
    pub symbols: &'a Symbols,
    pub declared: &'a HostNames,
    weak: Vec<WeakNames>,
    counts: Vec<usize>,
    any: FuncType,
    ghost few: { AreFew members.now },
    ghost counted: { counts.items ≡ function_counts (map member_of members.now) },
}

impl<'a> Known<'a> {
    ghost use Rattle.std.specs.Prelude.{◌<◌, ℕ, List, length, slice_get, is_some, Some, IfOk};
    ghost use Rattle.std.specs.Option.{option_copied};
    ghost use Rattle.spec_loading.specs.spec_runtime.Names.{HostName};
    ghost use Rattle.spec_loading.specs.spec_linking.LinkedSets as linked;
    ghost use Rattle.spec_loading.specs.spec_linking.LinkedSets.{LinkedSet};
    ghost use Rattle.spec_loading.specs.spec_linking.Links.{type_in};
    ghost use Rattle.spec_loading.specs.spec_binary.Indices.{function_type};
    ghost use Rattle.dyl_scope.specs.Scopes.{meaning_of};
    ghost use Rattle.dyl_names.specs.declared.def.Def.TheVariants as def;
    ghost use Rattle.dyl_imports.specs.Weak.{weak_in};
    ghost use Rattle.dyl_imports.specs.Kept.{IsKnownOf, AreOver};

    pub fn of(
        alloc: Global,
        members: &'a [Member],
        symbols: &'a Symbols,
        declared: &'a HostNames,
    ) -> Result<Known<'a>, Memory>
        requires { AreFew members.now }
        ensures members { IfOk result (λ k. k.members.now ≡ members.now) }
        ensures symbols { IfOk result (λ k. k.symbols.now ≡ symbols.now) }
        ensures exact { IfOk result (λ k. (L : LinkedSet) → AreOver L members.now symbols.now declared.now → IsKnownOf L k) }
    {
        let counts = counts_of(alloc, members)?;
        let weak = weak_of(alloc, members)?;
        Ok(Known {
            members,
            symbols,
            declared,
            weak,
            counts,
            any: FuncType {
                params: List::of(Vec::new(alloc)),
                results: List::of(Vec::new(alloc)),
            },
        })
    }

    fn is_weak(&self, m: u32, name: &str) -> bool
        ensures { result ≡ weak_in self.now.weak.items m name.now }
    {
        match self.weak.get(m as usize) {
            Some(names) => names.contains(name),
            None => false,
        }
    }

    // Whether a host function of this module and name is declared.
    pub fn is_declared(&self, from: &str, name: &str) -> bool
        ensures { result ≡ linked.is_declared self.now.declared.now from.now name.now }
    {
        is_declared(self.declared, &self.any, from, name)
    }

    // The number, where a host function is declared for an import of this kind of `env`.
    fn host_for(&self, kind: Kind, name: &str, number: u32) -> Option<u32>
        ensures some { is_some result ≡ linked.is_host_for self.now.declared.now kind name.now }
        ensures number { (n : ℕ) → result ≡ Some n → n ≡ number }
    {
        if is_host_for(self.declared, &self.any, kind, name) {
            Some(number)
        } else {
            None
        }
    }

    // The definition of a name that no other than the host may give, or that is weak.
    fn last_definition(&self, m: u32, kind: Kind, name: &str, number: u32) -> Def
        requires { m < length self.now.symbols.now.names }
        ensures meaning { (L : LinkedSet) → IsKnownOf L self.now → meaning_of result ≡ linked.definition L m kind name.now }
        ensures host { (n : ℕ) → result ≡ def.Host n → n ≡ number }
    {
        let host = self.host_for(kind, name, number);
        let weak = self.is_weak(m, name);
        self.symbols.resolve(m, name, host, weak)
    }

    // The definition of a name for an import of member m which is of this kind. A host function has this number. The host and weak names
    // are asked only where neither the loader nor a member defines the name.
    pub fn definition(&self, m: u32, kind: Kind, name: &str, number: u32) -> Def
        requires { m < length self.now.symbols.now.names }
        ensures meaning { (L : LinkedSet) → IsKnownOf L self.now → meaning_of result ≡ linked.definition L m kind name.now }
        ensures host { (n : ℕ) → result ≡ def.Host n → n ≡ number }
    {
        match self.symbols.resolve(m, name, None, false) {
            Def::Nothing => self.last_definition(m, kind, name, number),
            found => found,
        }
    }

    // The same where the host declares the name, and else nothing: what is asked for is whether the definition is the host's.
    #[tactic(auto, using(crate::proofs::ByHost::undeclared))]
    pub fn host_definition(&self, m: u32, kind: Kind, name: &str) -> Def
        requires { m < length self.now.symbols.now.names }
        ensures { (L : LinkedSet) (hosts : List HostName) → IsKnownOf L self.now → linked.host_defined (meaning_of result) hosts ≡ linked.host_defined (linked.definition L m kind name.now) hosts }
    {
        if is_host_for(self.declared, &self.any, kind, name) {
            self.definition(m, kind, name, 0)
        } else {
            Def::Nothing
        }
    }

    // The type of function f of member m.
    pub fn func_type(&self, m: u32, f: u32) -> Option<&FuncType>
        ensures { (L : LinkedSet) → IsKnownOf L self.now → option_copied result ≡ type_in L m f }
    {
        match self.members.get(m as usize) {
            Some(member) => self.type_of(m, member, f),
            None => None,
        }
    }

    fn type_of(&self, m: u32, member: &'a Member, f: u32) -> Option<&FuncType>
        requires { slice_get self.now.members.now m ≡ Some member.now }
        ensures { option_copied result ≡ function_type member.now.checked f }
    {
        if (f as usize) < self.counts[m as usize] {
            Some(member.checked.func_type(f))
        } else {
            None
        }
    }
}
