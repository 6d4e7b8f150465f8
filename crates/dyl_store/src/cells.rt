// The cells of a member, one for each kind and name, in the order of imports.
ghost use Rattle.std.specs.Prelude.{◌≡◌, ◌<◌, ◌^◌, length, OnOk};
ghost use Rattle.spec_loading.specs.spec_linking.Slots.{cell_of_import, imported_number};
ghost use Rattle.dyl_addresses.specs.Kept.{AreAddressesOf};
ghost use Rattle.dyl_store.specs.Opening.{global_place, Adds, cell_globals, IsAtCells, with_cell, with_cells, with_imports};

use crate::opened_members::{global_place, is_global};
use dyl_addresses::Addresses;
use dyl_link::Linked;
use dyl_link::dyl_imports::{Use, use_of};
use wasm_form::{Import, Memory, Value};

// Adds a cell, unless it is there already: it has the address of what comes next.
fn put_cell(to: &mut Vec<Value>, address: u32, value: Option<u32>) -> Result<(), Memory>
    ensures { OnOk result (to.new.items ≡ with_cell to.old.items address value) }
{
    if address as usize == to.len() {
        to.push(Value::Num(u64::from(value.unwrap_or(0))))?;
    }
    Ok(())
}

// Adds the cell that an import is of, if it is of one and the cell isn't there already.
fn put_cell_of(
    to: &mut Vec<Value>,
    i: &Import,
    address: u32,
    value: Option<u32>,
) -> Result<(), Memory>
    ensures { OnOk result (to.new.items ≡ with_cells to.old.items address value (cell_of_import i.now)) }
{
    match use_of(i) {
        Use::DataCell | Use::SlotCell => put_cell(to, address, value),
        _ => Ok(()),
    }
}

// Adds the cells that imports of member m are of.
fn put_cells(
    to: &mut Vec<Value>,
    linked: &Linked,
    addresses: &Addresses,
    m: u32,
    imports: &[Import],
) -> Result<(), Memory>
    requires { length imports.now < 2 ^ 32 }
    ensures { OnOk result (to.new.items ≡ with_imports (global_place addresses.now m) (imported_number linked.now m) to.old.items 0 imports.now) }
{
    let mut g: u32 = 0;
    for i in imports {
        put_cell_of(to, i, global_place(addresses, m, g), linked.find_cell(m, g))?;
        g += is_global(i.desc);
    }
    Ok(())
}

// Adds the cells of a member, which come behind its bases.
pub(crate) fn put_member_cells(
    to: &mut Vec<Value>,
    linked: &Linked,
    addresses: &Addresses,
    m: u32,
) -> Result<(), Memory>
    requires member { m < length linked.now.set.members }
    requires addresses { AreAddressesOf linked.now addresses.now }
    requires place { IsAtCells linked.now m to.old.items }
    ensures { OnOk result (Adds cell_globals linked.now m to.old.items to.new.items) }
{
    linked.links();
    put_cells(to, linked, addresses, m, linked.module(m).imports.items())
}
