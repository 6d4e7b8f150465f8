// The addresses of what members have.
ghost use Rattle.std.specs.Prelude.{◌≡◌, IfOk};
ghost use Rattle.spec_loading.specs.spec_linking.Gathering.{IsSet};
ghost use Rattle.dyl_addresses.specs.Lists.{listed_item};
ghost use Rattle.dyl_addresses.specs.Globals.{address_at};
ghost use Rattle.dyl_addresses.specs.Kept.{kept_global, kept_table, kept_elem, kept_data, AreAddressesOf, addresses_of};

use crate::globals::global_lists;
use crate::lists::{Space, numbered, table_lists};
use dyl_link::Linked;
use std::alloc::Global;
use std::marker::Model;
use wasm_form::{List, Memory};

/// The addresses of what the members of a linked set have in its store, by the members' own numbers.
#[derive(Drop)]
pub struct Addresses {
    globals: Vec<List<Option<u32>>>,
    tables: Vec<List<u32>>,
    elems: Vec<List<u32>>,
    datas: Vec<List<u32>>,
}

impl Model for Addresses {
    ghost use Rattle.dyl_addresses.specs.Kept.{KeptAddresses};

    ghost Value = { KeptAddresses };

    ghost view = { λ a. record {
      globals = a.globals.items;
      tables = a.tables.items;
      elems = a.elems.items;
      datas = a.datas.items;
    } };
}

// The addresses of what the members have, member by member.
fn kept(alloc: Global, linked: &Linked) -> Result<Addresses, Memory>
    requires { IsSet linked.now.set }
    ensures { IfOk result (λ a. a ≡ addresses_of linked.now) }
{
    let members = linked.members();
    let globals = global_lists(alloc, members, 1)?;
    let tables = table_lists(alloc, members, 1)?;
    let elems = numbered(alloc, members, Space::Elems, 0)?;
    let datas = numbered(alloc, members, Space::Datas, 0)?;
    Ok(Addresses {
        globals,
        tables,
        elems,
        datas,
    })
}

// The address at a place, if there is one.
fn address_at(addresses: &[Option<u32>], i: u32) -> Option<u32>
    ensures { result ≡ address_at addresses.now i }
{
    match addresses.get(i as usize) {
        Some(address) => *address,
        None => None,
    }
}

// Item i of the list of member m.
fn item_of(lists: &[List<u32>], m: u32, i: u32) -> Option<u32>
    ensures { result ≡ listed_item lists.now m i }
{
    match lists.get(m as usize) {
        Some(list) => match list.items().get(i as usize) {
            Some(address) => Some(*address),
            None => None,
        },
        None => None,
    }
}

impl Addresses {
    /// The addresses of what the members of a linked set have. `Memory` where no memory could be had.
    pub fn of(alloc: Global, linked: &Linked) -> Result<Addresses, Memory>
        ensures { IfOk result (λ a. AreAddressesOf linked.now a) }
    {
        linked.links();
        let addresses = kept(alloc, linked)?;
        Ok(addresses)
    }

    /// The address of global g of member m, if it has one.
    pub fn global(&self, m: u32, g: u32) -> Option<u32>
        ensures { result ≡ kept_global self.now m g }
    {
        match self.globals.as_slice().get(m as usize) {
            Some(list) => address_at(list.items(), g),
            None => None,
        }
    }

    /// The address of table t of member m, if it has one.
    pub fn table(&self, m: u32, t: u32) -> Option<u32>
        ensures { result ≡ kept_table self.now m t }
    {
        item_of(self.tables.as_slice(), m, t)
    }

    /// The address of element segment e of member m, if it has one.
    pub fn elem(&self, m: u32, e: u32) -> Option<u32>
        ensures { result ≡ kept_elem self.now m e }
    {
        item_of(self.elems.as_slice(), m, e)
    }

    /// The address of data segment d of member m, if it has one.
    pub fn segment(&self, m: u32, d: u32) -> Option<u32>
        ensures { result ≡ kept_data self.now m d }
    {
        item_of(self.datas.as_slice(), m, d)
    }
}
