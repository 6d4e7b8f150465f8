// The host functions that a module imports.
ghost use Rattle.std.specs.Prelude.{◌≡◌, IfOk};
ghost use Rattle.std.specs.Option.{option_copied};
ghost use Rattle.wasm_single.specs.Starts.{type_imported, TellsCause, unknown_import, other_import, Meets, MeetsOne};

use host_table::{HostMatch, HostName, HostNames};
use spec_safety::spec_execution::SingleFault;
use std::alloc::Global;
use wasm_form::{FuncType, Import, ImportDesc, Memory, Module, Text};

/// The type of an imported function.
fn imported_type<'a>(m: &'a Module, desc: &ImportDesc) -> Option<&'a FuncType>
    ensures { option_copied result ≡ type_imported m.now desc.now }
{
    match desc {
        ImportDesc::Func(t) => m.types.items().get(*t as usize),
        ImportDesc::Table(_) | ImportDesc::Space(_) | ImportDesc::Global(_) => None,
    }
}

/// The module and the name of an import that isn't met.
fn import_names(alloc: Global, import: &Import) -> Result<(Text, Text), Memory>
    ensures { IfOk result (λ p. (p.0 ≡ import.now.«module») × (p.1 ≡ import.now.field)) }
{
    let from = Text::copied(alloc, import.module.as_str())?;
    let name = Text::copied(alloc, import.field.as_str())?;
    Ok((from, name))
}

/// That an import isn't a declared host function.
fn unknown(alloc: Global, import: &Import) -> SingleFault
    ensures { TellsCause (unknown_import import.now) result }
{
    match import_names(alloc, import) {
        Ok((module, name)) => SingleFault::HostImport { module, name },
        Err(Memory) => SingleFault::Memory,
    }
}

/// That an import is a host function of another type.
fn other_type(alloc: Global, import: &Import) -> SingleFault
    ensures { TellsCause (other_import import.now) result }
{
    match import_names(alloc, import) {
        Ok((module, name)) => SingleFault::HostType { module, name },
        Err(Memory) => SingleFault::Memory,
    }
}

/// The host function that an import is.
fn host_of(
    alloc: Global,
    m: &Module,
    names: &HostNames,
    import: &Import,
) -> Result<HostName, SingleFault>
    ensures { MeetsOne m.now names.now import.now result }
{
    let Some(ty) = imported_type(m, &import.desc) else {
        return Err(unknown(alloc, import));
    };
    let (from, name) = (import.module.as_str(), import.field.as_str());
    match names.find(from, name, ty) {
        HostMatch::Unknown => Err(unknown(alloc, import)),
        HostMatch::OtherType => Err(other_type(alloc, import)),
        HostMatch::Fits => Ok(HostName::new(alloc, from, name, ty)?),
    }
}

/// The host functions that imports are, in order.
pub(crate) fn hosts_of(
    alloc: Global,
    m: &Module,
    names: &HostNames,
    imports: &[Import],
) -> Result<Vec<HostName>, SingleFault>
    ensures { Meets m.now names.now imports.now result }
{
    let mut hosts = Vec::new(alloc);
    for import in imports {
        hosts.push(host_of(alloc, m, names, import)?)?;
    }
    Ok(hosts)
}
