// Names with what they are defined as, in the order of their definitions.
ghost use Rattle.std.specs.Prelude.{◌≡◌, [], map, None, IfOk, OnOk, OnErr};
ghost use Rattle.std.specs.Map.{lookup};
ghost use Rattle.std.specs.Str.{bytes_eq};
ghost use Rattle.dyl_names.specs.Names.{symbol_value, maybe_symbol, with_symbol, with_all, definition_value};

use crate::symbol::{Definition, Symbol};
use indexmap::IndexMap;
use spec_linking::wasm_form::{Memory, owned};
use std::alloc::Global;
use std::marker::Model;

/// The names that a member defines. Of two definitions of a name the first one counts.
#[derive(Drop)]
pub struct Names {
    symbols: IndexMap<String, Symbol>,
}

impl Model for Names {
    ghost use Rattle.dyl_names.specs.Names.{Defined, by_bytes};

    ghost Value = { Defined };

    ghost view = { λ n. by_bytes n.symbols.entries };
}

impl Names {
    // No name is defined.
    fn new(alloc: Global) -> Names
        ensures { result ≡ [] }
    {
        Names {
            symbols: IndexMap::new(alloc),
        }
    }

    /// What a name is defined as.
    pub fn get(&self, name: &str) -> Option<Symbol>
        ensures { maybe_symbol result ≡ lookup (bytes_eq name.now) self.now }
    {
        self.symbols.get(name).copied()
    }

    // Adds a definition of a name, unless the name is defined already. At want of memory nothing is changed.
    fn define(&mut self, alloc: Global, name: &str, symbol: Symbol) -> Result<(), Memory>
        ensures ok { OnOk result (self.new ≡ with_symbol name.now (symbol_value symbol) self.old) }
        ensures err { OnErr result (self.new ≡ self.old) }
    {
        if self.get(name).is_some() {
            return Ok(());
        }
        self.add(alloc, name, symbol)
    }

    // Adds a definition of a name that isn't defined.
    fn add(&mut self, alloc: Global, name: &str, symbol: Symbol) -> Result<(), Memory>
        requires new { lookup (bytes_eq name.now) self.old ≡ None }
        ensures ok { OnOk result (self.new ≡ with_symbol name.now (symbol_value symbol) self.old) }
        ensures err { OnErr result (self.new ≡ self.old) }
    {
        let key = owned(alloc, name)?;
        self.symbols.insert(key, symbol)?;
        Ok(())
    }

    /// Names by their definitions. `Memory` where no memory could be had.
    pub fn of(alloc: Global, definitions: &[Definition]) -> Result<Names, Memory>
        ensures { IfOk result (λ names. names ≡ with_all [] (map definition_value definitions.now)) }
    {
        let mut names = Names::new(alloc);
        for d in definitions {
            names.define(alloc, d.name.as_str(), d.symbol)?;
        }
        Ok(names)
    }
}
