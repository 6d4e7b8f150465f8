// The faults of imports.
ghost use Rattle.std.specs.Prelude.{◌<◌, true, length};
ghost use Rattle.spec_loading.specs.spec_linking.LinkedSets.{LinkedSet, definition};
ghost use Rattle.spec_loading.specs.spec_linking.Links as links;
ghost use Rattle.spec_loading.specs.spec_linking.Links.{first_fault, ◌or_else◌};
ghost use Rattle.spec_loading.specs.spec_linking.Imports as forms;
ghost use Rattle.spec_loading.specs.spec_linking.declared.fault.Kind.TheVariants as kind;
ghost use Rattle.spec_loading.specs.spec_linking.declared.fault.LinkFault.TheVariants as faults;
ghost use Rattle.dyl_slots.specs.dyl_imports.Kept.{AreImportsOf};
ghost use Rattle.dyl_link.specs.Answers.{Tells};

use crate::cells::{data_cell, slot_cell};
use crate::functions::{env_function, host_function};
use dyl_slots::dyl_imports::{Imports, Use, is_function_table, is_i32_global, is_memory, use_of};
use dyl_slots::dyl_names::{ill_typed, unresolved};
use spec_loading::spec_linking::{Kind, LinkFault};
use std::alloc::Global;
use wasm_form::{Import, Module};

// A cell with the address of data.
fn data_import(alloc: Global, imports: &Imports, m: u32, i: &Import) -> Result<(), LinkFault>
    requires { m < length imports.now.known.symbols.now.names }
    ensures { (L : LinkedSet) → AreImportsOf L imports.now → Tells result (links.unless (forms.is_i32_global true i.now.desc) (faults.IllTyped m kind.Mem i.now.field) or_else links.data_cell_fault m i.now.field (definition L m kind.Mem i.now.field)) }
{
    let name = i.field.as_str();
    ill_typed(alloc, is_i32_global(true, i.desc), m, Kind::Mem, name)?;
    data_cell(alloc, m, name, imports.definition(m, Kind::Mem, name))
}

// A cell with the slot of a function.
fn slot_import(alloc: Global, imports: &Imports, m: u32, i: &Import) -> Result<(), LinkFault>
    requires { m < length imports.now.known.symbols.now.names }
    ensures { (L : LinkedSet) → AreImportsOf L imports.now → Tells result (links.unless (forms.is_i32_global true i.now.desc) (faults.IllTyped m kind.Func i.now.field) or_else links.slot_cell_fault m i.now.field (definition L m kind.Func i.now.field)) }
{
    let name = i.field.as_str();
    ill_typed(alloc, is_i32_global(true, i.desc), m, Kind::Func, name)?;
    slot_cell(alloc, m, name, imports.definition(m, Kind::Func, name))
}

// A function of `env`, of a type by its number.
fn env_import(
    alloc: Global,
    imports: &Imports,
    m: u32,
    wasm: &Module,
    i: &Import,
    t: u32,
) -> Result<(), LinkFault>
    requires { m < length imports.now.known.symbols.now.names }
    ensures { (L : LinkedSet) → AreImportsOf L imports.now → Tells result (links.fault_as L m wasm.now i.now (forms.EnvFunction t)) }
{
    let name = i.field.as_str();
    let found = imports.definition(m, Kind::Function, name);
    env_function(
        alloc,
        imports,
        m,
        name,
        wasm.types.items().get(t as usize),
        found,
    )
}

// What is shared, and the bases: an import of these has a form.
fn formed(alloc: Global, holds: bool, m: u32, i: &Import) -> Result<(), LinkFault>
    ensures { Tells result (links.unless holds (faults.IllTyped m kind.Other i.now.field)) }
{
    ill_typed(alloc, holds, m, Kind::Other, i.field.as_str())
}

fn import_fault(
    alloc: Global,
    imports: &Imports,
    m: u32,
    wasm: &Module,
    i: &Import,
) -> Result<(), LinkFault>
    requires { m < length imports.now.known.symbols.now.names }
    ensures { (L : LinkedSet) → AreImportsOf L imports.now → Tells result (links.import_fault L m wasm.now i.now) }
{
    let (from, name) = (i.module.as_str(), i.field.as_str());
    match use_of(i) {
        Use::SharedMemory => formed(alloc, is_memory(i.desc), m, i),
        Use::SharedTable => formed(alloc, is_function_table(i.desc), m, i),
        Use::StackPointer => formed(alloc, is_i32_global(true, i.desc), m, i),
        Use::MemoryBase | Use::TableBase => formed(alloc, is_i32_global(false, i.desc), m, i),
        Use::DataCell => data_import(alloc, imports, m, i),
        Use::SlotCell => slot_import(alloc, imports, m, i),
        Use::EnvFunction(t) => env_import(alloc, imports, m, wasm, i, t),
        Use::ModuleFunction(t) => {
            let wanted = wasm.types.items().get(t as usize);
            host_function(alloc, imports, m, from, name, wanted)
        }
        Use::Other => unresolved(alloc, m, Kind::Other, name),
    }
}

pub(crate) fn import_faults(
    alloc: Global,
    imports: &Imports,
    m: u32,
    wasm: &Module,
) -> Result<(), LinkFault>
    requires { m < length imports.now.known.symbols.now.names }
    ensures { (L : LinkedSet) → AreImportsOf L imports.now → Tells result (first_fault (links.import_fault L m wasm.now) wasm.now.imports) }
{
    for i in wasm.imports.items() {
        import_fault(alloc, imports, m, wasm, i)?;
    }
    Ok(())
}
