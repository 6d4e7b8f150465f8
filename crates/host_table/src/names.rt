// The names under which host functions are declared.
ghost use Rattle.std.specs.Prelude.{◌≡◌, ◌<◌, ◌+◌, length, take, IfOk, OnOk, OnErr, None, unwrap_or, IfSome, IsTrue};
ghost use Rattle.std.specs.Map.{lookup};
ghost use Rattle.std.specs.Str.{bytes_eq};
ghost use Rattle.std.specs.Option.{option_copied};
ghost use Rattle.std.specs.String.{string_eq};
ghost use Rattle.indexmap.specs.IndexMap.{IsUnique};
ghost use Rattle.spec_runtime.specs.Names.{HostModule, no_names, empty_module, host_module, change_module, with_name, with_rest, host_match, host_typed, has_integers};
ghost use Rattle.host_table.specs.Names.{by_text, match_of, HaveIntegers};

use crate::module::{HostMatch, ModuleNames};
use indexmap::IndexMap;
use spec_runtime::wasm_form::{FuncType, Memory, owned};
use std::alloc::Global;
use std::marker::Model;

/// The host functions that are declared, by their modules and names. Of two declarations that cover a name the first
/// one counts.
#[derive(Drop)]
pub struct HostNames {
    modules: IndexMap<String, ModuleNames>,
}

impl Model for HostNames {
    ghost use Rattle.host_table.specs.Names.{by_text, ModulesHaveIntegers};
    ghost use Rattle.spec_runtime.specs.Names as names;

    ghost Value = { names.HostNames };

    ghost view = { λ n. record { modules = by_text n.modules.entries } };

    ghost invariant = { λ n. ModulesHaveIntegers n.modules.entries };
}

impl HostNames {
    /// Nothing is declared.
    pub fn new(alloc: Global) -> HostNames
        ensures { result ≡ no_names }
    {
        HostNames {
            modules: IndexMap::new(alloc),
        }
    }

    /// The same declarations, in memory of their own.
    pub fn copied(&self, alloc: Global) -> Result<HostNames, Memory>
        ensures { IfOk result (λ names. names ≡ self.now) }
    {
        let mut modules = IndexMap::new(alloc);
        for n in 0..self.modules.len() {
            copy_module(alloc, &self.modules, n, &mut modules)?;
        }
        Ok(HostNames { modules })
    }

    /// Declares a host function of integers alone by its module, its name and its type. Where the name is declared
    /// already, the earlier declaration stays the one that counts. At want of memory nothing is changed.
    pub fn declare(
        &mut self,
        alloc: Global,
        from: &str,
        name: &str,
        ty: FuncType,
    ) -> Result<(), Memory>
        requires integers { IsTrue (has_integers ty) }
        ensures ok { OnOk result (self.new ≡ with_name self.old (record { module_name = from.now; name = name.now; ty = ty })) }
        ensures err { OnErr result (self.new ≡ self.old) }
    {
        match self.modules.get_mut(from) {
            Some(names) => {
                let declared = names.declare(alloc, name, ty);
                names.integers();
                declared
            }
            None => {
                let mut names = ModuleNames::new(alloc);
                names.declare(alloc, name, ty)?;
                self.add_module(alloc, from, names)
            }
        }
    }

    /// Declares every name of a module that isn't declared yet, for every type of i32 and i64 parameters with the one
    /// result i32. A later declaration of such a name doesn't count. At want of memory nothing is changed.
    pub fn declare_rest(&mut self, alloc: Global, from: &str) -> Result<(), Memory>
        ensures ok { OnOk result (self.new ≡ with_rest self.old from.now) }
        ensures err { OnErr result (self.new ≡ self.old) }
    {
        match self.modules.get_mut(from) {
            Some(names) => {
                names.declare_rest();
                names.integers();
                Ok(())
            }
            None => {
                let mut names = ModuleNames::new(alloc);
                names.declare_rest();
                self.add_module(alloc, from, names)
            }
        }
    }

    /// What is declared has integers alone. The call does nothing: a proof gets this fact by it.
    pub fn integers(&self)
        ensures { HaveIntegers self.now }
    {
        let _modules = &self.modules;
    }

    /// What is declared of a name, against a type: `Unknown` exactly where nothing declares the name, `Fits` exactly
    /// where the declaration that counts covers the type, else `OtherType`.
    pub fn find(&self, from: &str, name: &str, ty: &FuncType) -> HostMatch
        ensures { match_of result ≡ host_match self.now from.now name.now ty.now }
    {
        match self.module(from) {
            Some(names) => names.find(name, ty),
            None => HostMatch::Unknown,
        }
    }

    /// The type of a name whose declaration that counts was made with a type by `declare`, else None. It has integers
    /// alone.
    pub fn typed(&self, from: &str, name: &str) -> Option<&FuncType>
        ensures value { option_copied result ≡ host_typed self.now from.now name.now }
        ensures integers { IfSome (option_copied result) (λ t. IsTrue (has_integers t)) }
    {
        match self.module(from) {
            Some(names) => names.typed(name),
            None => None,
        }
    }

    // What is declared of a module, if anything is.
    fn module(&self, from: &str) -> Option<&ModuleNames>
        ensures { unwrap_or (option_copied result) empty_module ≡ host_module self.now from.now }
    {
        self.modules.get(from)
    }

    // Adds a module of which nothing is declared so far.
    fn add_module(&mut self, alloc: Global, from: &str, names: ModuleNames) -> Result<(), Memory>
        requires new { lookup (bytes_eq from.now) self.old.modules ≡ None }
        ensures ok { OnOk result ((change : HostModule → HostModule) → names ≡ change empty_module → self.new ≡ record { modules = change_module change from.now self.old.modules }) }
        ensures err { OnErr result (self.new ≡ self.old) }
    {
        names.integers();
        let key = owned(alloc, from)?;
        self.modules.insert(key, names)?;
        Ok(())
    }
}

// Copies what is declared of module n, behind the copies of those before it.
fn copy_module(
    alloc: Global,
    from: &IndexMap<String, ModuleNames>,
    n: usize,
    to: &mut IndexMap<String, ModuleNames>,
) -> Result<(), Memory>
    requires there { n < length from.now.entries }
    requires unique { IsUnique string_eq from.now }
    requires before { by_text to.old.entries ≡ by_text (take n from.now.entries) }
    ensures { OnOk result (by_text to.new.entries ≡ by_text (take (n + 1) from.now.entries)) }
{
    let Some((name, names)) = from.get_index(n) else {
        return Ok(());
    };
    let name = owned(alloc, name.as_str())?;
    let names = names.copied(alloc)?;
    to.insert(name, names)?;
    Ok(())
}
