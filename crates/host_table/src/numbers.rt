// Numbers of host functions by their modules and names.
ghost use Rattle.std.specs.Prelude.{◌≡◌, ◌++◌, ◌∷◌, [], None, OnOk, OnErr, IfOk};
ghost use Rattle.std.specs.Map.{lookup};
ghost use Rattle.std.specs.Str.{bytes_eq};
ghost use Rattle.host_table.specs.Numbers.{number_of, with_number};

use indexmap::IndexMap;
use spec_runtime::wasm_form::{Memory, owned};
use std::alloc::Global;
use std::marker::Model;

// The names of one module with their numbers.
#[derive(Drop)]
pub struct NameNumbers {
    names: IndexMap<String, u32>,
}

impl Model for NameNumbers {
    ghost use Rattle.std.specs.Prelude.{ℕ, List};
    ghost use Rattle.host_table.specs.Names.{by_text};

    ghost Value = { List (List ℕ × ℕ) };

    ghost view = { λ n. by_text n.names.entries };
}

impl NameNumbers {
    // One name with its number.
    fn one(alloc: Global, name: &str, number: u32) -> Result<NameNumbers, Memory>
        ensures { IfOk result (λ n. n ≡ (name.now, number) ∷ []) }
    {
        let mut names = NameNumbers {
            names: IndexMap::new(alloc),
        };
        names.add(alloc, name, number)?;
        Ok(names)
    }

    // Adds a name that isn't there.
    fn add(&mut self, alloc: Global, name: &str, number: u32) -> Result<(), Memory>
        requires new { lookup (bytes_eq name.now) self.old ≡ None }
        ensures ok { OnOk result (self.new ≡ self.old ++ (name.now, number) ∷ []) }
        ensures err { OnErr result (self.new ≡ self.old) }
    {
        let key = owned(alloc, name)?;
        self.names.insert(key, number)?;
        Ok(())
    }

    // The number of a name.
    fn find(&self, name: &str) -> Option<u32>
        ensures { result ≡ lookup (bytes_eq name.now) self.now }
    {
        self.names.get(name).copied()
    }
}

/// Numbers of host functions, by their modules and names.
#[derive(Drop)]
pub struct HostNumbers {
    modules: IndexMap<String, NameNumbers>,
}

impl Model for HostNumbers {
    ghost use Rattle.host_table.specs.Names.{by_text};
    ghost use Rattle.host_table.specs.Numbers as numbers;

    ghost Value = { numbers.Numbers };

    ghost view = { λ n. by_text n.modules.entries };
}

impl HostNumbers {
    /// No host function has a number.
    pub fn new(alloc: Global) -> HostNumbers
        ensures { result ≡ [] }
    {
        HostNumbers {
            modules: IndexMap::new(alloc),
        }
    }

    /// The number of a module and a name, if they have one.
    pub fn find(&self, from: &str, name: &str) -> Option<u32>
        ensures { result ≡ number_of self.now from.now name.now }
    {
        match self.modules.get(from) {
            Some(names) => names.find(name),
            None => None,
        }
    }

    /// Numbers a module and a name that have no number. At want of memory nothing is changed.
    pub fn add(&mut self, alloc: Global, from: &str, name: &str, number: u32) -> Result<(), Memory>
        requires new { number_of self.old from.now name.now ≡ None }
        ensures ok { OnOk result (self.new ≡ with_number from.now name.now number self.old) }
        ensures err { OnErr result (self.new ≡ self.old) }
    {
        match self.modules.get_mut(from) {
            Some(names) => names.add(alloc, name, number),
            None => {
                let names = NameNumbers::one(alloc, name, number)?;
                self.add_module(alloc, from, names)
            }
        }
    }

    // Adds a module that isn't there.
    fn add_module(&mut self, alloc: Global, from: &str, names: NameNumbers) -> Result<(), Memory>
        requires new { lookup (bytes_eq from.now) self.old ≡ None }
        ensures ok { OnOk result (self.new ≡ self.old ++ (from.now, names) ∷ []) }
        ensures err { OnErr result (self.new ≡ self.old) }
    {
        let key = owned(alloc, from)?;
        self.modules.insert(key, names)?;
        Ok(())
    }
}
