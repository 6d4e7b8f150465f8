// The names that the exports of a module define.
ghost use Rattle.std.specs.Prelude.{◌≡◌, ◌<◌, ◌++◌, map, ◌^◌, length, IsTrue, IfOk, OnOk};
ghost use Rattle.std.specs.List.{list_all};
ghost use Rattle.wasm_form.specs.declared.module.ExportDesc.TheVariants as desc;
ghost use Rattle.spec_linking.specs.spec_binary.IndexSpaces.{imported_count};
ghost use Rattle.spec_linking.specs.spec_validation.Faults.{global_fits};
ghost use Rattle.spec_linking.specs.Definitions as defined;
ghost use Rattle.dyl_scope.specs.Names.{maybe_symbol, symbol_value, definition_value, defined_as, defined_in, data_at, own_data, Counts};

use crate::globals::data_symbol;
use dyl_names::{Definition, Symbol};
use std::alloc::Global;
use wasm_check::{imported_functions, imported_globals};
use wasm_form::{Export, ExportDesc, Memory, Module, Text};

/// Whether a name is one that no member defines for others: the functions and the handle that the loader itself looks for.
pub fn is_reserved(name: &str) -> bool
    ensures { result ≡ defined.is_one_of name.now defined.reserved_names }
{
    match name {
        "__wasm_apply_data_relocs"
        | "__wasm_call_ctors"
        | "__dso_handle"
        | "_start"
        | "_initialize" => true,
        _ => false,
    }
}

// How many functions and globals are imported.
#[derive(Clone, Copy)]
pub(crate) struct Imported {
    functions: usize,
    globals: u32,
}

/// A function, if it is one of the module's own, where so many are imported.
pub fn own_function(m: &Module, imported: usize, f: u32) -> Option<u32>
    requires counted { imported ≡ imported_count m.now }
    ensures { result ≡ defined.own_only m.now f }
{
    let place = f as usize;
    if place < imported {
        return None;
    }
    if place - imported < m.funcs.items().len() {
        Some(f)
    } else {
        None
    }
}

// What a global of the module's own defines a name as, by its place among these.
fn data_at(alloc: Global, m: &Module, place: u32) -> Result<Option<Symbol>, Memory>
    requires { IsTrue (list_all (global_fits m.now) m.now.globals) }
    ensures { IfOk result (λ s. maybe_symbol s ≡ data_at m.now place) }
{
    match m.globals.items().get(place as usize) {
        Some(global) => data_symbol(alloc, m, global),
        None => Ok(None),
    }
}

fn own_global(
    alloc: Global,
    m: &Module,
    imported: Imported,
    g: u32,
) -> Result<Option<Symbol>, Memory>
    requires counted { Counts m.now imported }
    requires fit { IsTrue (list_all (global_fits m.now) m.now.globals) }
    ensures { IfOk result (λ s. maybe_symbol s ≡ own_data m.now g) }
{
    if g < imported.globals {
        return Ok(None);
    }
    data_at(alloc, m, g - imported.globals)
}

fn function_symbol(m: &Module, imported: Imported, f: u32) -> Option<Symbol>
    requires counted { Counts m.now imported }
    ensures { maybe_symbol result ≡ defined.desc_symbol m.now (desc.Func f) }
{
    match own_function(m, imported.functions, f) {
        Some(own) => Some(Symbol::Function(own)),
        None => None,
    }
}

fn desc_symbol(
    alloc: Global,
    m: &Module,
    imported: Imported,
    desc: ExportDesc,
) -> Result<Option<Symbol>, Memory>
    requires counted { Counts m.now imported }
    requires fit { IsTrue (list_all (global_fits m.now) m.now.globals) }
    ensures { IfOk result (λ s. maybe_symbol s ≡ defined.desc_symbol m.now desc) }
{
    match desc {
        ExportDesc::Func(f) => Ok(function_symbol(m, imported, f)),
        ExportDesc::Table(_) | ExportDesc::Space(_) => Ok(None),
        ExportDesc::Global(g) => own_global(alloc, m, imported, g),
    }
}

fn export_symbol(
    alloc: Global,
    m: &Module,
    imported: Imported,
    e: &Export,
) -> Result<Option<Symbol>, Memory>
    requires counted { Counts m.now imported }
    requires fit { IsTrue (list_all (global_fits m.now) m.now.globals) }
    ensures { IfOk result (λ s. maybe_symbol s ≡ defined.export_symbol m.now e.now) }
{
    if is_reserved(e.name.as_str()) {
        return Ok(None);
    }
    desc_symbol(alloc, m, imported, e.desc)
}

// A name and what it is defined as, by a copy of the name.
fn definition(alloc: Global, name: &str, symbol: Symbol) -> Result<Definition, Memory>
    ensures { IfOk result (λ d. definition_value d ≡ (name.now, symbol_value symbol)) }
{
    let name = Text::copied(alloc, name)?;
    Ok(Definition { name, symbol })
}

fn define_export(
    alloc: Global,
    definitions: &mut Vec<Definition>,
    m: &Module,
    imported: Imported,
    e: &Export,
) -> Result<(), Memory>
    requires counted { Counts m.now imported }
    requires fit { IsTrue (list_all (global_fits m.now) m.now.globals) }
    ensures { OnOk result (map definition_value definitions.new.items ≡ map definition_value definitions.old.items ++ defined_as e.now.name (defined.export_symbol m.now e.now)) }
{
    match export_symbol(alloc, m, imported, e)? {
        Some(symbol) => {
            let d = definition(alloc, e.name.as_str(), symbol)?;
            definitions.push(d)?;
            Ok(())
        }
        None => Ok(()),
    }
}

// What the exports of a module define, in order.
pub(crate) fn definitions_of(alloc: Global, m: &Module) -> Result<Vec<Definition>, Memory>
    requires few { length m.now.imports < 2 ^ 32 }
    requires fit { IsTrue (list_all (global_fits m.now) m.now.globals) }
    ensures { IfOk result (λ definitions. map definition_value definitions.items ≡ defined_in m.now m.now.exports) }
{
    let imported = Imported {
        functions: imported_functions(m.imports.items()),
        globals: imported_globals(m.imports.items()) as u32,
    };
    let mut definitions = Vec::new(alloc);
    for e in m.exports.items() {
        define_export(alloc, &mut definitions, m, imported, e)?;
    }
    Ok(definitions)
}
