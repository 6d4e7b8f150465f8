// The names that have numbers.
ghost use Rattle.std.specs.Prelude.{◌≡◌, ◌∷◌, [], None, ◌<◌, ◌^◌, length, slice_get, position, IfOk, OnOk};
ghost use Rattle.std.specs.Option.{option_map};
ghost use Rattle.spec_linking.specs.Wanted.{Wanted, is_named, number_of, with_name, with_one_of};

use indexmap::IndexMap;
use std::alloc::Global;
use std::marker::Model;
use wasm_form::{Memory, Text, owned};

// The names that have numbers, in the order of these, each with the number of the member that first needs it.
#[derive(Drop)]
pub struct Names {
    entries: IndexMap<String, u32>,
}

impl Model for Names {
    ghost use Rattle.std.specs.Prelude.{List};
    ghost use Rattle.spec_linking.specs.Wanted.{Wanted};
    ghost use Rattle.dyl_search.specs.Known.{by_text};

    ghost Value = { List Wanted };

    ghost view = { λ n. by_text n.entries.entries };
}

impl Names {
    // The name of the main module alone.
    pub fn of(alloc: Global, name: &str) -> Result<Names, Memory>
        ensures { IfOk result (λ n. n ≡ record { name = name.now; needed_by = 0 } ∷ []) }
    {
        let mut entries = IndexMap::new(alloc);
        let key = owned(alloc, name)?;
        entries.insert(key, 0)?;
        Ok(Names { entries })
    }

    pub fn len(&self) -> usize
        ensures { result ≡ length self.now }
    {
        self.entries.len()
    }

    // The name with this number, and the number of the member that first needs it.
    pub fn get(&self, n: usize) -> Option<(&str, u32)>
        ensures { option_map (λ p. record { name = p.0.now; needed_by = p.1 }) result ≡ slice_get self.now n }
    {
        match self.entries.get_index(n) {
            Some((name, by)) => Some((name.as_str(), *by)),
            None => None,
        }
    }

    // The number of a name.
    pub fn find(&self, name: &str) -> Option<usize>
        ensures { result ≡ position (is_named name.now) self.now }
    {
        self.entries.get_index_of(name)
    }

    // The number of a name that a member needs. A name that has none gets the next one.
    pub fn number(&mut self, alloc: Global, name: &str, needed_by: u32) -> Result<u32, Memory>
        requires { length self.old < 2 ^ 32 }
        ensures number { IfOk result (λ n. n ≡ number_of self.new name.now) }
        ensures known { OnOk result (self.new ≡ with_name needed_by self.old name.now) }
    {
        match self.find(name) {
            Some(n) => Ok(n as u32),
            None => self.add(alloc, name, needed_by),
        }
    }

    // The first of some names that has no number gets the next, as if the main module needed it.
    pub fn add_one_of(&mut self, alloc: Global, names: &[Text]) -> Result<(), Memory>
        requires { length self.old < 2 ^ 32 }
        ensures { OnOk result (self.new ≡ with_one_of names.now self.old) }
    {
        for name in names {
            match self.find(name.as_str()) {
                Some(_) => {}
                None => {
                    self.add(alloc, name.as_str(), 0)?;
                    return Ok(());
                }
            }
        }
        Ok(())
    }

    // The number of a new name.
    fn add(&mut self, alloc: Global, name: &str, needed_by: u32) -> Result<u32, Memory>
        requires new { position (is_named name.now) self.old ≡ None }
        requires few { length self.old < 2 ^ 32 }
        ensures number { IfOk result (λ n. n ≡ number_of self.new name.now) }
        ensures known { OnOk result (self.new ≡ with_name needed_by self.old name.now) }
    {
        let n = self.entries.len() as u32;
        let key = owned(alloc, name)?;
        self.entries.insert(key, needed_by)?;
        Ok(n)
    }
}
