// The members that define a name, by the names of all members.
ghost use Rattle.std.specs.Prelude.{◌≡◌, ◌≤◌, ◌∷◌, [], length, map, None, IfOk, OnOk};
ghost use Rattle.std.specs.Map.{lookup};
ghost use Rattle.std.specs.Str.{bytes_eq};
ghost use Rattle.dyl_scope.specs.Names.{definition_value};
ghost use Rattle.dyl_scope.specs.Kept.{names_by};
ghost use Rattle.dyl_scope.specs.Definers.{definers_of, with_definer, with_definers, AreDefiners};

use crate::maker::Told;
use dyl_names::{Definition, DistinctNumbers};
use indexmap::IndexMap;
use std::alloc::Global;
use std::marker::Model;
use wasm_form::Memory;

// Of each name the members that define it, in order.
#[derive(Drop)]
pub(crate) struct Definers {
    members: IndexMap<String, DistinctNumbers>,
}

impl Model for Definers {
    ghost use Rattle.dyl_scope.specs.Definers.{Definers, by_text};

    ghost Value = { Definers };

    ghost view = { λ d. by_text d.members.entries };
}

// One member.
fn one(alloc: Global, m: u32) -> Result<DistinctNumbers, Memory>
    ensures { IfOk result (λ members. members ≡ m ∷ []) }
{
    let mut members = DistinctNumbers::new(alloc, 0)?;
    members.add(alloc, m)?;
    Ok(members)
}

impl Definers {
    // No name is defined.
    fn new(alloc: Global) -> Definers
        ensures { result ≡ [] }
    {
        Definers {
            members: IndexMap::new(alloc),
        }
    }

    // The members that define a name.
    pub fn get(&self, name: &str) -> &[u32]
        ensures { result.now ≡ definers_of self.now name.now }
    {
        match self.members.get(name) {
            Some(members) => members.list(),
            None => &[],
        }
    }

    // A member more that defines a name.
    fn add(&mut self, alloc: Global, name: &str, m: u32) -> Result<(), Memory>
        ensures { OnOk result (self.new ≡ with_definer name.now m self.old) }
    {
        match self.members.get_mut(name) {
            Some(members) => members.add(alloc, m),
            None => self.add_name(alloc, name, m),
        }
    }

    // A name that no member before this one defines.
    fn add_name(&mut self, alloc: Global, name: &str, m: u32) -> Result<(), Memory>
        requires new { lookup (bytes_eq name.now) self.old ≡ None }
        ensures { OnOk result (self.new ≡ with_definer name.now m self.old) }
    {
        let members = one(alloc, m)?;
        let mut key = String::new(alloc);
        key.push_str(name)?;
        self.members.insert(key, members)?;
        Ok(())
    }

    // Member m defines these names.
    fn add_all(&mut self, alloc: Global, m: u32, definitions: &[Definition]) -> Result<(), Memory>
        ensures { OnOk result (self.new ≡ with_definers m (map definition_value definitions.now) self.old) }
    {
        for d in definitions {
            self.add(alloc, d.name.as_str(), m)?;
        }
        Ok(())
    }
}

// The members that define a name, of those that are told of.
pub(crate) fn definers_of(alloc: Global, members: &[Told]) -> Result<Definers, Memory>
    requires { length members.now ≤ 256 }
    ensures { IfOk result (λ definers. AreDefiners (map names_by members.now) definers) }
{
    let mut definers = Definers::new(alloc);
    let mut m = 0;
    for member in members {
        definers.add_all(alloc, m, member.definitions.items())?;
        m += 1;
    }
    Ok(definers)
}
