// What the imports of a closed set stand for.
use crate::finding::hosts_of;
use crate::hosts::Hosts;
use crate::known::Known;
use dyl_scope::{Def, Symbols};
use dyl_search::Member;
use host_table::{HostName, HostNames};
use spec_loading::spec_linking::Kind;
use std::alloc::Global;
use wasm_form::{FuncType, Memory};

/// What the imports of a set's members stand for: the definitions of their names, and the host functions that they name, in order.
#[derive(Drop)]
pub struct Imports<'a> {
    pub(crate) known: Known<'a>,
    pub(crate) hosts: Hosts,
}

impl<'a> Imports<'a> {
    ghost use Rattle.std.specs.Prelude.{◌≡◌, ◌<◌, ◌≤◌, ℕ, length, map, find, unwrap_or, IfOk};
    ghost use Rattle.std.specs.Option.{option_copied, option_map};
    ghost use Rattle.spec_loading.specs.spec_linking.Sets.{ClosedSet};
    ghost use Rattle.spec_loading.specs.spec_linking.Gathering.{IsSet};
    ghost use Rattle.spec_loading.specs.spec_linking.Definitions.{env_name};
    ghost use Rattle.spec_loading.specs.spec_linking.LinkedSets as linked;
    ghost use Rattle.spec_loading.specs.spec_linking.LinkedSets.{LinkedSet, is_named, host_entry};
    ghost use Rattle.spec_loading.specs.spec_linking.Links.{type_in};
    ghost use Rattle.host_table.specs.Names.{host_name_of};
    ghost use Rattle.dyl_search.specs.Gathers.{member_of};
    ghost use Rattle.dyl_scope.specs.Scopes.{meaning_of};
    ghost use Rattle.dyl_names.specs.declared.def.Def.TheVariants as def;
    ghost use Rattle.dyl_imports.specs.Kept.{AreImportsOf, AreOver};

    /// Looks at the imports of a set's members, over the names that the members define and the host functions that are declared.
    pub fn of(
        alloc: Global,
        members: &'a [Member],
        symbols: &'a Symbols,
        declared: &'a HostNames,
    ) -> Result<Imports<'a>, Memory>
        requires few { length members.now ≤ 256 }
        requires set { (S : ClosedSet) × IsSet S × (S.members ≡ map member_of members.now) }
        requires count { length symbols.now.names ≡ length members.now }
        ensures members { IfOk result (λ i. i.known.members.now ≡ members.now) }
        ensures symbols { IfOk result (λ i. i.known.symbols.now ≡ symbols.now) }
        ensures exact { IfOk result (λ i. (L : LinkedSet) → AreOver L members.now symbols.now declared.now → AreImportsOf L i) }
    {
        let known = Known::of(alloc, members, symbols, declared)?;
        match hosts_of(alloc, &known) {
            Ok(hosts) => Ok(Imports { known, hosts }),
            Err(memory) => {
                drop(known);
                Err(memory)
            }
        }
    }

    /// The definition of a name for an import of member m which is of this kind. A host function has its number among `hosts`, or 0 where it
    /// has none.
    pub fn definition(&self, m: u32, kind: Kind, name: &str) -> Def
        requires { m < length self.now.known.symbols.now.names }
        ensures meaning { (L : LinkedSet) → AreImportsOf L self.now → meaning_of result ≡ linked.definition L m kind name.now }
        ensures host { (L : LinkedSet) → AreImportsOf L self.now → (n : ℕ) → result ≡ def.Host n → n ≡ unwrap_or (host_entry L env_name name.now) 0 }
    {
        let number = self.host("env", name).unwrap_or(0);
        self.known.definition(m, kind, name, number)
    }

    /// The host functions that the imports name, in the order of the first import of each, with the type that it has there.
    pub fn hosts(&self) -> &[HostName]
        ensures { (L : LinkedSet) → AreImportsOf L self.now → map host_name_of result.now ≡ linked.hosts_of L }
    {
        self.hosts.list()
    }

    /// The same, without the rest.
    pub fn into_hosts(self) -> Vec<HostName>
        ensures { (L : LinkedSet) → AreImportsOf L self.entry → map host_name_of result.items ≡ linked.hosts_of L }
    {
        self.hosts.into_list()
    }

    /// The number of a host function, by its module and name.
    pub fn host(&self, from: &str, name: &str) -> Option<u32>
        ensures { (L : LinkedSet) → AreImportsOf L self.now → result ≡ host_entry L from.now name.now }
    {
        self.hosts.find(from, name)
    }

    /// The type that the first import of a host function gives it.
    pub fn host_type(&self, from: &str, name: &str) -> Option<&FuncType>
        ensures { (L : LinkedSet) → AreImportsOf L self.now → option_copied result ≡ option_map (λ h. h.ty) (find (is_named from.now name.now) (linked.hosts_of L)) }
    {
        self.hosts.host_type(from, name)
    }

    /// The type of function f of member m, by its number.
    pub fn func_type(&self, m: u32, f: u32) -> Option<&FuncType>
        ensures { (L : LinkedSet) → AreImportsOf L self.now → option_copied result ≡ type_in L m f }
    {
        self.known.func_type(m, f)
    }

    /// The host functions that are declared.
    pub fn declared(&self) -> &HostNames
        ensures { result.now ≡ self.now.known.declared.now }
    {
        self.known.declared
    }

    /// The members of the set.
    pub fn members(&self) -> &'a [Member]
        ensures { result.now ≡ self.now.known.members.now }
    {
        self.known.members
    }

    /// The names that the members define.
    pub fn symbols(&self) -> &'a Symbols
        ensures { result.now ≡ self.now.known.symbols.now }
    {
        self.known.symbols
    }
}
