// The members with which a run begins, each with the addresses of what it has.
ghost use Rattle.std.specs.Prelude.{◌≡◌, ◌<◌, ◌≤◌, ◌+◌, ◌^◌, length, IfOk};
ghost use Rattle.spec_loading.specs.spec_binary.IndexSpaces.{imports_of, globals_in, tables_in, global_space, table_space, imported_count};
ghost use Rattle.dyl_addresses.specs.Kept.{AreAddressesOf};
ghost use Rattle.dyl_store.specs.Units.{IsUnit, AreUnits};
ghost use Rattle.dyl_store.specs.Opening.{global_place, table_place, elem_place, data_place, first_of};

use crate::run_member::Unit;
use dyl_addresses::Addresses;
use dyl_link::Linked;
use dyl_link::wasm_check::{imported_functions, imported_globals};
use std::alloc::Global;
use wasm_form::{Import, ImportDesc, Memory, Module};
use wasm_instance::rooms_of;

pub(crate) fn is_global(desc: ImportDesc) -> u32
    ensures told { result ≡ length (globals_in desc) }
    ensures one { result ≤ 1 }
{
    match desc {
        ImportDesc::Global(_) => 1,
        ImportDesc::Func(_) | ImportDesc::Table(_) | ImportDesc::Space(_) => 0,
    }
}

fn is_table(desc: ImportDesc) -> u32
    ensures told { result ≡ length (tables_in desc) }
    ensures one { result ≤ 1 }
{
    match desc {
        ImportDesc::Table(_) => 1,
        ImportDesc::Func(_) | ImportDesc::Space(_) | ImportDesc::Global(_) => 0,
    }
}

// How many tables are imported.
fn imported_tables(imports: &[Import]) -> u32
    requires { length imports.now < 2 ^ 32 }
    ensures told { result ≡ length (imports_of tables_in imports.now) }
    ensures few { result ≤ length imports.now }
{
    let mut count: u32 = 0;
    for import in imports {
        count += is_table(import.desc);
    }
    count
}

// The address of a global of a member, where it has one.
pub(crate) fn global_place(addresses: &Addresses, m: u32, g: u32) -> u32
    ensures { result ≡ global_place addresses.now m g }
{
    addresses.global(m, g).unwrap_or(0)
}

// The address of a table of a member, where it has one.
fn table_place(addresses: &Addresses, m: u32, t: u32) -> u32
    ensures { result ≡ table_place addresses.now m t }
{
    addresses.table(m, t).unwrap_or(0)
}

// The address of an element segment of a member, where it has one.
fn elem_place(addresses: &Addresses, m: u32, e: u32) -> u32
    ensures { result ≡ elem_place addresses.now m e }
{
    addresses.elem(m, e).unwrap_or(0)
}

// The address of a data segment of a member, where it has one.
fn data_place(addresses: &Addresses, m: u32, d: u32) -> u32
    ensures { result ≡ data_place addresses.now m d }
{
    addresses.segment(m, d).unwrap_or(0)
}

// The addresses of the first globals of a member.
fn first_globals(
    alloc: Global,
    addresses: &Addresses,
    m: u32,
    count: u32,
) -> Result<Vec<u32>, Memory>
    ensures { IfOk result (λ v. v.items ≡ first_of (global_place addresses.now m) count) }
{
    let mut all = Vec::new(alloc);
    for g in 0..count {
        all.push(global_place(addresses, m, g))?;
    }
    Ok(all)
}

// The addresses of the first tables of a member.
fn first_tables(
    alloc: Global,
    addresses: &Addresses,
    m: u32,
    count: u32,
) -> Result<Vec<u32>, Memory>
    ensures { IfOk result (λ v. v.items ≡ first_of (table_place addresses.now m) count) }
{
    let mut all = Vec::new(alloc);
    for t in 0..count {
        all.push(table_place(addresses, m, t))?;
    }
    Ok(all)
}

// The addresses of the globals of a member, by their numbers.
fn global_addresses(
    alloc: Global,
    addresses: &Addresses,
    m: u32,
    wasm: &Module,
) -> Result<Vec<u32>, Memory>
    requires { length wasm.now.imports + length wasm.now.globals < 2 ^ 32 }
    ensures { IfOk result (λ v. v.items ≡ first_of (global_place addresses.now m) (length (global_space wasm.now))) }
{
    let own = wasm.globals.items().len() as u32;
    let count = imported_globals(wasm.imports.items()) as u32 + own;
    first_globals(alloc, addresses, m, count)
}

// The addresses of the tables of a member, by their numbers.
fn table_addresses(
    alloc: Global,
    addresses: &Addresses,
    m: u32,
    wasm: &Module,
) -> Result<Vec<u32>, Memory>
    requires { length wasm.now.imports + length wasm.now.tables < 2 ^ 32 }
    ensures { IfOk result (λ v. v.items ≡ first_of (table_place addresses.now m) (length (table_space wasm.now))) }
{
    let own = wasm.tables.items().len() as u32;
    let count = imported_tables(wasm.imports.items()) + own;
    first_tables(alloc, addresses, m, count)
}

// How many functions a member imports.
fn function_count(wasm: &Module) -> u32
    requires { length wasm.now.imports < 2 ^ 32 }
    ensures { result ≡ imported_count wasm.now }
{
    imported_functions(wasm.imports.items()) as u32
}

// What is kept of a member.
fn unit_of<'m>(
    alloc: Global,
    linked: &'m Linked,
    addresses: &Addresses,
    m: u32,
) -> Result<Unit<'m>, Memory>
    requires member { m < length linked.now.set.members }
    requires addresses { AreAddressesOf linked.now addresses.now }
    ensures { IfOk result (λ u. IsUnit linked.now m u) }
{
    linked.links();
    let checked = &linked.member(m).checked;
    let wasm = checked.module();
    let imported = function_count(wasm);
    let globals = global_addresses(alloc, addresses, m, wasm)?;
    let tables = table_addresses(alloc, addresses, m, wasm)?;
    let rooms = rooms_of(alloc, checked)?;
    Ok(Unit {
        checked,
        imported,
        rooms,
        globals,
        tables,
        first_elem: elem_place(addresses, m, 0),
        first_data: data_place(addresses, m, 0),
    })
}

// The members, in order.
pub(crate) fn units_of<'m>(
    alloc: Global,
    linked: &'m Linked,
    addresses: &Addresses,
) -> Result<Vec<Unit<'m>>, Memory>
    requires { AreAddressesOf linked.now addresses.now }
    ensures { IfOk result (λ units. AreUnits linked.now units.items) }
{
    let count = linked.member_count();
    let mut units = Vec::new(alloc);
    for m in 0..count {
        let unit = unit_of(alloc, linked, addresses, m)?;
        units.push(unit)?;
    }
    Ok(units)
}
