// The functions and globals that a module imports, and the functions of its own that it exports.
ghost use Rattle.std.specs.Prelude.{◌≡◌, ◌≤◌, length};
ghost use Rattle.spec_execution.specs.spec_binary.IndexSpaces.{functions_in, globals_in, imports_of};
ghost use Rattle.spec_execution.specs.spec_binary.Indices.{is_own};
ghost use Rattle.spec_execution.specs.spec_binary.Exports.{own_function};
ghost use Rattle.wasm_check.specs.Exports.{named_function};

use wasm_form::{ExportDesc, Import, ImportDesc, Module};

/// How many functions are imported.
pub fn imported_functions(imports: &[Import]) -> usize
    ensures count { result ≡ length (imports_of functions_in imports.now) }
    ensures few { result ≤ length imports.now }
{
    let mut count = 0;
    for import in imports {
        if let ImportDesc::Func(_) = import.desc {
            count += 1;
        }
    }
    count
}

/// How many globals are imported.
pub fn imported_globals(imports: &[Import]) -> usize
    ensures count { result ≡ length (imports_of globals_in imports.now) }
    ensures few { result ≤ length imports.now }
{
    let mut count = 0;
    for import in imports {
        if let ImportDesc::Global(_) = import.desc {
            count += 1;
        }
    }
    count
}

fn is_own(m: &Module, f: u32) -> bool
    ensures { result ≡ is_own m.now f }
{
    let imported = imported_functions(m.imports.items());
    imported <= f as usize && f as usize - imported < m.funcs.items().len()
}

// The function that a name is exported as.
fn exported(m: &Module, name: &str) -> Option<u32>
    ensures { result ≡ named_function name.now m.now.exports }
{
    for export in m.exports.items() {
        if name == export.name.as_str() {
            return match export.desc {
                ExportDesc::Func(f) => Some(f),
                ExportDesc::Table(_) | ExportDesc::Space(_) | ExportDesc::Global(_) => None,
            };
        }
    }
    None
}

/// The function that a module itself defines and exports under a name.
pub fn exported_function(m: &Module, name: &str) -> Option<u32>
    ensures { result ≡ own_function m.now name.now }
{
    let f = exported(m, name)?;
    if is_own(m, f) { Some(f) } else { None }
}
