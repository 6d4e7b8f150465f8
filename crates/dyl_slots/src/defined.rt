// The functions that a member defines under names.
ghost use Rattle.std.specs.Prelude.{◌≡◌, ◌+◌, length, None, Some, IfOk, OnOk};
ghost use Rattle.spec_loading.specs.spec_binary.IndexSpaces.{imported_count, function_space};
ghost use Rattle.spec_loading.specs.spec_linking.Definitions as defined;
ghost use Rattle.spec_loading.specs.spec_linking.Slots.{with_function, defined_functions};

use dyl_imports::dyl_scope::{DistinctNumbers, is_reserved, own_function};
use dyl_imports::wasm_check::imported_functions;
use std::alloc::Global;
use wasm_form::{Export, ExportDesc, Memory, Module};

// How many functions there are.
pub(crate) fn functions_count(m: &Module) -> usize
    ensures { result ≡ length (function_space m.now) }
{
    imported_functions(m.imports.items()) + m.funcs.items().len()
}

// The function of the module's own that an export defines its name as.
fn defined_function(m: &Module, imported: usize, e: &Export) -> Option<u32>
    requires counted { imported ≡ imported_count m.now }
    ensures { result ≡ defined.defined_function m.now e.now }
{
    if is_reserved(e.name.as_str()) {
        return None;
    }
    match e.desc {
        ExportDesc::Func(f) => own_function(m, imported, f),
        ExportDesc::Table(_) | ExportDesc::Space(_) | ExportDesc::Global(_) => None,
    }
}

fn define(alloc: Global, known: &mut DistinctNumbers, f: Option<u32>) -> Result<(), Memory>
    ensures { OnOk result (known.new ≡ with_function known.old f) }
{
    match f {
        Some(f) => known.add(alloc, f),
        None => Ok(()),
    }
}

// The functions that a module of so many functions defines under names, each once.
pub(crate) fn defined_functions(
    alloc: Global,
    m: &Module,
    count: usize,
) -> Result<DistinctNumbers, Memory>
    ensures { IfOk result (λ known. known ≡ defined_functions m.now) }
{
    let imported = imported_functions(m.imports.items());
    let mut known = DistinctNumbers::new(alloc, count)?;
    for e in m.exports.items() {
        define(alloc, &mut known, defined_function(m, imported, e))?;
    }
    Ok(known)
}
