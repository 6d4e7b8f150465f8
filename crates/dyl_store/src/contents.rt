// What the members of a linked set begin with.
ghost use Rattle.std.specs.Prelude.{◌≡◌, ◌<◌, ◌++◌, length, map, IfOk, OnOk};
ghost use Rattle.spec_loading.specs.Members.{opening_store};
ghost use Rattle.dyl_addresses.specs.Kept.{AreAddressesOf};
ghost use Rattle.dyl_store.specs.Opening as opening;
ghost use Rattle.dyl_store.specs.Opening.{AreGlobals, Adds, base_globals, own_globals};
ghost use Rattle.spec_loading.specs.Members as members;

use crate::cells::put_member_cells;
use crate::constants::{Names, put_elems, put_globals};
use crate::shared::shared_table;
use dyl_addresses::{Addresses, bases_of, functions_of};
use dyl_link::Linked;
use std::alloc::Global;
use wasm_form::{Data, Memory, Ref, Value};
use wasm_instance::tables_of as own_tables;
use wasm_space::Slots;

// ---- element segments

// Adds the element segments of a member.
fn put_member_elems(
    alloc: Global,
    to: &mut Vec<Vec<Option<Ref>>>,
    linked: &Linked,
    m: u32,
) -> Result<(), Memory>
    requires { m < length linked.now.set.members }
    ensures { OnOk result (Adds opening.elems_of linked.now m (map (λ v. v.items) to.old.items) (map (λ v. v.items) to.new.items)) }
{
    let bases = bases_of(alloc, linked, m)?;
    let names = Names {
        functions: functions_of(linked, m),
        bases: &bases,
    };
    put_elems(alloc, to, &names, linked.module(m).elems.items())
}

// The element segments of all members, in order.
pub(crate) fn elems_of(alloc: Global, linked: &Linked) -> Result<Vec<Vec<Option<Ref>>>, Memory>
    ensures { IfOk result (λ v. map (λ x. x.items) v.items ≡ (opening_store linked.now).elems) }
{
    let count = linked.member_count();
    let mut all = Vec::new(alloc);
    for m in 0..count {
        put_member_elems(alloc, &mut all, linked, m)?;
    }
    Ok(all)
}

// ---- data segments

// Adds the bytes of data segments.
fn put_datas<'m>(to: &mut Vec<&'m [u8]>, segments: &'m [Data]) -> Result<(), Memory>
    ensures { OnOk result (map (λ d. d.now) to.new.items ≡ map (λ d. d.now) to.old.items ++ map (λ d. d.bytes) segments.now) }
{
    for segment in segments {
        to.push(segment.bytes.items())?;
    }
    Ok(())
}

// Adds the data segments of a member.
fn put_member_datas<'m>(to: &mut Vec<&'m [u8]>, linked: &'m Linked, m: u32) -> Result<(), Memory>
    requires { m < length linked.now.set.members }
    ensures { OnOk result (Adds opening.datas_of linked.now m (map (λ d. d.now) to.old.items) (map (λ d. d.now) to.new.items)) }
{
    put_datas(to, linked.module(m).datas.items())
}

// The bytes of the data segments of all members, in order.
pub(crate) fn datas_of<'m>(alloc: Global, linked: &'m Linked) -> Result<Vec<&'m [u8]>, Memory>
    ensures { IfOk result (λ v. map (λ d. d.now) v.items ≡ (opening_store linked.now).datas) }
{
    let count = linked.member_count();
    let mut all = Vec::new(alloc);
    for m in 0..count {
        put_member_datas(&mut all, linked, m)?;
    }
    Ok(all)
}

// ---- tables

// Adds the tables that a member defines.
fn put_member_tables(
    alloc: Global,
    to: &mut Vec<Slots>,
    linked: &Linked,
    m: u32,
) -> Result<(), Memory>
    requires { m < length linked.now.set.members }
    ensures { OnOk result (Adds opening.tables_of linked.now m to.old.items to.new.items) }
{
    let wasm = linked.member(m).checked.module();
    let mut own = own_tables(alloc, wasm.tables.items())?;
    to.append(&mut own)?;
    Ok(())
}

// The shared table, and then the tables that each member defines.
pub(crate) fn tables_of(alloc: Global, linked: &Linked) -> Result<Vec<Slots>, Memory>
    ensures { IfOk result (λ v. v.items ≡ (opening_store linked.now).tables) }
{
    let count = linked.member_count();
    let shared = shared_table(alloc, linked)?;
    let mut all = Vec::new(alloc);
    all.push(shared)?;
    for m in 0..count {
        put_member_tables(alloc, &mut all, linked, m)?;
    }
    Ok(all)
}

// ---- globals

// Adds the bases of a member.
fn put_bases(to: &mut Vec<Value>, linked: &Linked, m: u32) -> Result<(), Memory>
    requires { m < length linked.now.set.members }
    ensures { OnOk result (Adds base_globals linked.now m to.old.items to.new.items) }
{
    let memory = linked.memory_base(m);
    let table = linked.table_base(m);
    to.push(Value::Num(u64::from(memory)))?;
    to.push(Value::Num(u64::from(table)))?;
    Ok(())
}

// Adds the globals that a member defines.
fn put_own_globals(
    alloc: Global,
    to: &mut Vec<Value>,
    linked: &Linked,
    m: u32,
) -> Result<(), Memory>
    requires { m < length linked.now.set.members }
    ensures { OnOk result (Adds own_globals linked.now m to.old.items to.new.items) }
{
    let bases = bases_of(alloc, linked, m)?;
    let names = Names {
        functions: functions_of(linked, m),
        bases: &bases,
    };
    put_globals(alloc, to, &names, linked.module(m).globals.items())
}

// Adds the bases, the cells and the globals of a member.
fn put_member_globals(
    alloc: Global,
    to: &mut Vec<Value>,
    linked: &Linked,
    addresses: &Addresses,
    m: u32,
) -> Result<(), Memory>
    requires member { m < length linked.now.set.members }
    requires addresses { AreAddressesOf linked.now addresses.now }
    requires before { AreGlobals linked.now m to.old.items }
    ensures { OnOk result (Adds members.opened_globals linked.now m to.old.items to.new.items) }
{
    put_bases(to, linked, m)?;
    put_member_cells(to, linked, addresses, m)?;
    put_own_globals(alloc, to, linked, m)
}

// The stack pointer, and then the bases, the cells and the globals of each member.
pub(crate) fn globals_of(
    alloc: Global,
    linked: &Linked,
    addresses: &Addresses,
) -> Result<Vec<Value>, Memory>
    requires { AreAddressesOf linked.now addresses.now }
    ensures { IfOk result (λ v. v.items ≡ (opening_store linked.now).globals) }
{
    let count = linked.member_count();
    let mut all = Vec::new(alloc);
    all.push(Value::Num(u64::from(linked.plan().stack_top())))?;
    for m in 0..count {
        put_member_globals(alloc, &mut all, linked, addresses, m)?;
    }
    Ok(all)
}
