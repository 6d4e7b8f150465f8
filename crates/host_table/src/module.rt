// What is declared of one module.
ghost use Rattle.std.specs.Prelude.{◌≡◌, ◌<◌, ◌+◌, false, length, take, IfOk, OnOk, OnErr, IfSome, IsTrue};
ghost use Rattle.std.specs.Map.{lookup};
ghost use Rattle.std.specs.Str.{bytes_eq};
ghost use Rattle.std.specs.Option.{option_copied};
ghost use Rattle.std.specs.String.{string_eq};
ghost use Rattle.indexmap.specs.IndexMap.{IsUnique};
ghost use Rattle.spec_runtime.specs.Names.{empty_module, declares, with_function, with_every_name, module_match, has_integers};
ghost use Rattle.host_table.specs.Names.{by_text, match_of, fits_where, TypesHaveIntegers};

use crate::copies::copied_type;
use crate::types::{is_rest_type, is_same_type};
use indexmap::IndexMap;
use spec_runtime::wasm_form::{FuncType, Memory, owned};
use std::alloc::Global;
use std::marker::Model;

/// Whether a name is undeclared, or the declaration of it that counts covers a type, or doesn't.
#[derive(Clone, Copy, Debug, PartialEq, Eq)]
pub enum HostMatch {
    Unknown,
    Fits,
    OtherType,
}

// Functions by their names and integer types, in first-seen order, and whether every other name is declared too.
#[derive(Drop)]
pub struct ModuleNames {
    functions: IndexMap<String, FuncType>,
    rest: bool,
}

impl Model for ModuleNames {
    ghost use Rattle.spec_runtime.specs.Names.{HostModule};
    ghost use Rattle.host_table.specs.Names.{by_text, TypesHaveIntegers};

    ghost Value = { HostModule };

    ghost view = { λ m. record { functions = by_text m.functions.entries; rest = m.rest } };

    ghost invariant = { λ m. TypesHaveIntegers m.functions.entries };
}

impl ModuleNames {
    // Nothing is declared.
    pub fn new(alloc: Global) -> ModuleNames
        ensures { result ≡ empty_module }
    {
        ModuleNames {
            functions: IndexMap::new(alloc),
            rest: false,
        }
    }

    // The same names with the same types, in memory of their own.
    pub fn copied(&self, alloc: Global) -> Result<ModuleNames, Memory>
        ensures { IfOk result (λ names. names ≡ self.now) }
    {
        let mut functions = IndexMap::new(alloc);
        for n in 0..self.functions.len() {
            copy_function(alloc, &self.functions, n, &mut functions)?;
        }
        Ok(ModuleNames {
            functions,
            rest: self.rest,
        })
    }

    // Declares a name with its type, unless the name is declared already.
    pub fn declare(&mut self, alloc: Global, name: &str, ty: FuncType) -> Result<(), Memory>
        requires integers { IsTrue (has_integers ty) }
        ensures ok { OnOk result (self.new ≡ with_function name.now ty self.old) }
        ensures err { OnErr result (self.new ≡ self.old) }
    {
        if self.is_declared(name) {
            return Ok(());
        }
        self.add_function(alloc, name, ty)
    }

    // The types have integers alone. The call does nothing: a proof gets this fact by it.
    pub fn integers(&self)
        ensures { TypesHaveIntegers self.now.functions }
    {
        let _functions = &self.functions;
    }

    // Whether a name is declared.
    fn is_declared(&self, name: &str) -> bool
        ensures { result ≡ declares name.now self.now }
    {
        self.rest || self.typed(name).is_some()
    }

    // Adds a function that isn't declared.
    fn add_function(&mut self, alloc: Global, name: &str, ty: FuncType) -> Result<(), Memory>
        requires undeclared { declares name.now self.old ≡ false }
        requires integers { IsTrue (has_integers ty) }
        ensures ok { OnOk result (self.new ≡ with_function name.now ty self.old) }
        ensures err { OnErr result (self.new ≡ self.old) }
    {
        let key = owned(alloc, name)?;
        self.functions.insert(key, ty)?;
        Ok(())
    }

    // Declares every name that isn't declared yet.
    pub fn declare_rest(&mut self)
        ensures { self.new ≡ with_every_name self.old }
    {
        self.rest = true;
    }

    // The type of a name that was declared with its type, which has integers alone.
    pub fn typed(&self, name: &str) -> Option<&FuncType>
        ensures value { option_copied result ≡ lookup (bytes_eq name.now) self.now.functions }
        ensures integers { IfSome (option_copied result) (λ t. IsTrue (has_integers t)) }
    {
        self.functions.get(name)
    }

    // What is declared of a name, against a type.
    pub fn find(&self, name: &str, ty: &FuncType) -> HostMatch
        ensures { match_of result ≡ module_match self.now name.now ty.now }
    {
        match self.typed(name) {
            Some(declared) => fits_if(is_same_type(declared, ty)),
            None if self.rest => fits_if(is_rest_type(ty)),
            None => HostMatch::Unknown,
        }
    }
}

// Copies function n, behind the copies of those before it.
fn copy_function(
    alloc: Global,
    from: &IndexMap<String, FuncType>,
    n: usize,
    to: &mut IndexMap<String, FuncType>,
) -> Result<(), Memory>
    requires there { n < length from.now.entries }
    requires unique { IsUnique string_eq from.now }
    requires integers { TypesHaveIntegers from.now.entries }
    requires before { by_text to.old.entries ≡ by_text (take n from.now.entries) }
    requires before_integers { TypesHaveIntegers to.old.entries }
    ensures copied { OnOk result (by_text to.new.entries ≡ by_text (take (n + 1) from.now.entries)) }
    ensures copied_integers { OnOk result (TypesHaveIntegers to.new.entries) }
{
    let Some((name, ty)) = from.get_index(n) else {
        return Ok(());
    };
    let name = owned(alloc, name.as_str())?;
    let ty = copied_type(alloc, ty)?;
    to.insert(name, ty)?;
    Ok(())
}

fn fits_if(covered: bool) -> HostMatch
    ensures { match_of result ≡ fits_where covered }
{
    if covered {
        HostMatch::Fits
    } else {
        HostMatch::OtherType
    }
}
