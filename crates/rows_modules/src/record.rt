// What the record of a module says: four numbers, and then names, notes of exports and of imports, and paths.
use dyl_section::{Dylink, ExportInfo, ImportInfo, read_dylink};
use std::alloc::{AllocError, Global};
use wasm_form::{Module, Text};

fn push_names(to: &mut String, word: &str, names: &[Text]) -> Result<(), AllocError> {
    for name in names {
        write!(to, " {word} '{}'", name.as_str())?;
    }
    Ok(())
}

fn push_exports(to: &mut String, notes: &[ExportInfo]) -> Result<(), AllocError> {
    for note in notes {
        write!(to, " exports '{}' {}", note.name.as_str(), note.flags)?;
    }
    Ok(())
}

fn push_imports(to: &mut String, notes: &[ImportInfo]) -> Result<(), AllocError> {
    for note in notes {
        let (module, field) = (note.module.as_str(), note.field.as_str());
        write!(to, " imports '{module}' '{field}' {}", note.flags)?;
    }
    Ok(())
}

fn said(alloc: Global, d: &Dylink) -> Result<String, AllocError> {
    let mut said = format!(in alloc;
        "{} {} {} {}",
        d.mem_size, d.mem_align, d.table_size, d.table_align
    )?;
    push_names(&mut said, "needs", d.needed.items())?;
    push_exports(&mut said, d.exports.items())?;
    push_imports(&mut said, d.imports.items())?;
    push_names(&mut said, "searches", d.paths.items())?;
    Ok(said)
}

/// What the record of a module says, or why there is none.
pub fn answer(alloc: Global, m: &Module) -> Result<String, AllocError> {
    match read_dylink(alloc, m) {
        Ok(d) => {
            let told = said(alloc, &d);
            drop(d);
            told
        }
        Err(fault) => format!(in alloc; "{fault}"),
    }
}
