// The lines of what each import is.
ghost use Rattle.std.specs.Prelude.{◌≡◌, ◌++◌, ◌<◌, ◌≤◌, ◌^◌, codes, decimal, length, IfOk, OnOk, string_bytes};
ghost use Rattle.spec_traces.specs.spec_hosts.spec_binary.IndexSpaces.{functions_in, globals_in};
ghost use Rattle.spec_linking.specs.Imports as imports;
ghost use Rattle.spec_linking.specs.LinkedSets.{function_ref};
ghost use Rattle.spec_linking.specs.Slots.{imported_number};
ghost use Rattle.dyl_front.specs.Listing.{space, line_end, bind_line, function_bind, cell_bind, bind_as, import_lines, bind_lines};

use crate::lines::put_around;
use crate::slots::place_text;
use dyl_link::Linked;
use dyl_link::dyl_imports::{Use, use_of};
use spec_merging::wasm_form::{Import, ImportDesc, Memory, Ref};
use std::alloc::Global;

/// The line of an import up to its name.
fn bind_start(alloc: Global, m: u32, kind: &str) -> Result<String, Memory>
    ensures { IfOk result (λ text. string_bytes text ≡ codes "bind " ++ decimal m ++ space ++ kind.now ++ space) }
{
    let text = format!(in alloc; "bind {m} {kind} ")?;
    Ok(text)
}

/// The end of such a line.
fn bind_end(alloc: Global, what: &str) -> Result<String, Memory>
    ensures { IfOk result (λ text. string_bytes text ≡ space ++ what.now ++ line_end) }
{
    let text = format!(in alloc; " {what}\n")?;
    Ok(text)
}

/// Puts the line of an import.
fn put_bind(
    alloc: Global,
    m: u32,
    kind: &str,
    name: &str,
    what: &str,
    to: &mut Vec<u8>,
) -> Result<(), Memory>
    ensures { OnOk result (to.new.items ≡ to.old.items ++ bind_line m kind.now name.now what.now) }
{
    let start = bind_start(alloc, m, kind)?;
    let end = bind_end(alloc, what)?;
    put_around(&start, name, &end, to)
}

/// Puts the line of an imported function.
fn put_function(
    alloc: Global,
    m: u32,
    name: &str,
    function: Option<Ref>,
    to: &mut Vec<u8>,
) -> Result<(), Memory>
    ensures { OnOk result (to.new.items ≡ to.old.items ++ function_bind m name.now function) }
{
    let Some(r) = function else {
        return Ok(());
    };
    let place = place_text(alloc, r)?;
    put_bind(alloc, m, "function", name, &place, to)
}

/// Puts the line of an imported cell.
fn put_cell(
    alloc: Global,
    m: u32,
    kind: &str,
    name: &str,
    cell: Option<u32>,
    to: &mut Vec<u8>,
) -> Result<(), Memory>
    ensures { OnOk result (to.new.items ≡ to.old.items ++ cell_bind m kind.now name.now cell) }
{
    let Some(n) = cell else {
        return Ok(());
    };
    let number = format!(in alloc; "{n}")?;
    put_bind(alloc, m, kind, name, &number, to)
}

/// Puts the line of an import, where it has one.
fn put_import(
    alloc: Global,
    m: u32,
    i: &Import,
    function: Option<Ref>,
    cell: Option<u32>,
    to: &mut Vec<u8>,
) -> Result<(), Memory>
    ensures { OnOk result (to.new.items ≡ to.old.items ++ bind_as m i.now function cell (imports.use_of i.now)) }
{
    let name = i.field.as_str();
    match use_of(i) {
        Use::EnvFunction(_) | Use::ModuleFunction(_) => put_function(alloc, m, name, function, to),
        Use::DataCell => put_cell(alloc, m, "mem", name, cell, to),
        Use::SlotCell => put_cell(alloc, m, "func", name, cell, to),
        Use::SharedMemory
        | Use::SharedTable
        | Use::StackPointer
        | Use::MemoryBase
        | Use::TableBase
        | Use::Other => Ok(()),
    }
}

/// How many functions an import gives.
fn functions_in(desc: ImportDesc) -> u32
    ensures count { result ≡ length (functions_in desc) }
    ensures few { result ≤ 1 }
{
    match desc {
        ImportDesc::Func(_) => 1,
        ImportDesc::Table(_) | ImportDesc::Space(_) | ImportDesc::Global(_) => 0,
    }
}

/// How many globals an import gives.
fn globals_in(desc: ImportDesc) -> u32
    ensures count { result ≡ length (globals_in desc) }
    ensures few { result ≤ 1 }
{
    match desc {
        ImportDesc::Global(_) => 1,
        ImportDesc::Table(_) | ImportDesc::Space(_) | ImportDesc::Func(_) => 0,
    }
}

/// Puts the lines of the imports of member m.
fn put_imports(
    alloc: Global,
    linked: &Linked,
    m: u32,
    imports: &[Import],
    to: &mut Vec<u8>,
) -> Result<(), Memory>
    requires { length imports.now < 2 ^ 32 }
    ensures { OnOk result (to.new.items ≡ to.old.items ++ import_lines (function_ref linked.now) (imported_number linked.now) m 0 0 imports.now) }
{
    let (mut f, mut g) = (0, 0);
    for i in imports {
        put_import(
            alloc,
            m,
            i,
            linked.find_function(m, f),
            linked.find_cell(m, g),
            to,
        )?;
        f += functions_in(i.desc);
        g += globals_in(i.desc);
    }
    Ok(())
}

/// Puts the lines of the imports of all members.
pub(crate) fn put_binds(alloc: Global, linked: &Linked, to: &mut Vec<u8>) -> Result<(), Memory>
    ensures { OnOk result (to.new.items ≡ to.old.items ++ bind_lines (function_ref linked.now) (imported_number linked.now) 0 linked.now.set.members) }
{
    for m in 0..linked.member_count() {
        let wasm = linked.member(m).checked.module();
        put_imports(alloc, linked, m, wasm.imports.items(), to)?;
    }
    Ok(())
}
