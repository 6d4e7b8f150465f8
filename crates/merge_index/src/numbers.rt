// Numbers of a linked set.
ghost use Rattle.std.specs.Prelude.{◌≡◌, ◌<◌, ◌^◌, length, slice_get, IfOk};
ghost use Rattle.spec_loading.specs.Members.{uses_loader};
ghost use Rattle.dyl_link.specs.Functions.{AreFunctions};
ghost use Rattle.merge_index.specs.Numbering.{first_phase, loader_numbers, numbers_of};
ghost use Rattle.merge_match.specs.Parts.{number_of};
ghost use Rattle.dyl_addresses.specs.Kept.{AreAddressesOf};
ghost use Rattle.merge_index.specs.Lists.{loader_where, kept_of};
ghost use Rattle.merge_index.specs.Kept.{own_from, stub_number, call_in, numbers_in};

use crate::functions::{Known, all_stubs_end, loader_behind, named_lists};
use crate::lists::{imported_counts, total};
use dyl_addresses::{Addresses, Space, numbered};
use dyl_link::Linked;
use merge_pieces::number_at;
use std::alloc::Global;
use std::marker::Model;
use wasm_form::{List, LoaderCall, Memory, Ref};

// The number of what is out of range: no module has so many of anything.
const NOWHERE: u32 = u32::MAX;

// The number of what has this address.
fn number_of(address: Option<u32>) -> u32
    ensures { result ≡ number_of address }
{
    match address {
        Some(address) => address,
        None => NOWHERE,
    }
}

// The number of a function of member m, by the numbers of those that each member defines, where so many are imported.
pub(crate) fn own_from(owns: &[List<u32>], m: u32, imported: Option<u32>, f: u32) -> u32
    ensures { result ≡ own_from owns.now m imported f }
{
    match imported {
        Some(imported) if f >= imported => number_at(owns, m, f - imported),
        _ => NOWHERE,
    }
}

// The number of a stub, where the stubs have those from one on, up to another.
fn stub_number(first: u32, end: u32, named: u32) -> u32
    ensures { result ≡ stub_number first end named }
{
    if first <= named && named < end {
        named
    } else {
        NOWHERE
    }
}

/// The numbers in the merged module of what it has for the functions of the loader.
///
/// `first_opening` is the function that opens the first member and `first_find` the one that searches its names; those of the other members
/// follow each. `length` is the function that gives the length of a string.
#[derive(Clone, Copy)]
pub struct LoaderNumbers {
    pub first_opening: u32,
    pub length: u32,
    pub first_find: u32,
    pub dlopen: u32,
    pub dlsym: u32,
    pub dlclose: u32,
    pub dlerror: u32,
}

// The number of a function of the loader.
pub(crate) fn call_in(loader: Option<LoaderNumbers>, call: LoaderCall) -> u32
    ensures { result ≡ call_in loader call }
{
    match loader {
        None => NOWHERE,
        Some(n) => match call {
            LoaderCall::Dlopen => n.dlopen,
            LoaderCall::Dlsym => n.dlsym,
            LoaderCall::Dlclose => n.dlclose,
            LoaderCall::Dlerror => n.dlerror,
        },
    }
}

pub(crate) fn count_at(counts: &[u32], m: u32) -> Option<u32>
    ensures { result ≡ slice_get counts.now m }
{
    Some(*counts.get(m as usize)?)
}

/// The numbers in the merged module of what the members of a linked set have: globals, tables and segments have their addresses. What is out of
/// range has the number 4,294,967,295, at which no module has anything.
#[derive(Drop)]
pub struct Numbers {
    pub(crate) functions: Vec<List<u32>>,
    pub(crate) owns: Vec<List<u32>>,
    pub(crate) imported: Vec<u32>,
    pub(crate) first_stub: u32,
    pub(crate) first_phase: u32,
    pub(crate) loader: Option<LoaderNumbers>,
    pub(crate) types: Vec<List<u32>>,
    pub(crate) addresses: Addresses,
}

impl Model for Numbers {
    ghost use Rattle.merge_index.specs.Kept.{KeptNumbers};

    ghost Value = { KeptNumbers };

    ghost view = { λ n. record {
      functions = n.functions.items;
      owns = n.owns.items;
      imported = n.imported.items;
      first_stub = n.first_stub;
      first_phase = n.first_phase;
      loader = n.loader;
      types = n.types.items;
      addresses = n.addresses;
    } };
}

// What there is for the functions of the loader, where the set uses them and the phases begin with a number.
fn loader_where(linked: &Linked, first: u32) -> Option<LoaderNumbers>
    requires { first < 2 ^ 31 }
    ensures { result ≡ loader_where (uses_loader linked.now) first (length linked.now.set.members) }
{
    if !linked.uses_loader() {
        return None;
    }
    Some(loader_behind(first, linked.member_count()))
}

// What is kept of a linked set, by the functions that the numbers of its members name.
fn kept(alloc: Global, linked: &Linked, named: &[List<Ref>]) -> Result<Numbers, Memory>
    requires { AreFunctions linked.now named.now }
    ensures kept { IfOk result (λ n. n ≡ kept_of linked.now named.now n.addresses) }
    ensures addresses { IfOk result (λ n. AreAddressesOf linked.now n.addresses) }
{
    linked.links();
    let members = linked.members();
    let hosts = linked.hosts().len() as u32;
    let owns = numbered(alloc, members, Space::Codes, hosts)?;
    let imported = imported_counts(alloc, members)?;
    let first_stub = total(members, Space::Codes, hosts);
    let first_phase = all_stubs_end(first_stub, named);
    let loader = loader_where(linked, first_phase);
    let known = Known {
        owns: owns.as_slice(),
        imported: imported.as_slice(),
        loader,
    };
    let functions = named_lists(alloc, named, known, first_stub)?;
    let types = numbered(alloc, members, Space::Types, 0)?;
    let addresses = Addresses::of(alloc, linked)?;
    Ok(Numbers {
        functions,
        owns,
        imported,
        first_stub,
        first_phase,
        loader,
        types,
        addresses,
    })
}

impl Numbers {
    /// The numbers of what the members of a linked set have. `Memory` where no memory could be had.
    pub fn of(alloc: Global, linked: &Linked) -> Result<Numbers, Memory>
        ensures numbers { IfOk result (λ n. numbers_in n ≡ numbers_of linked.now) }
        ensures phase { IfOk result (λ n. n.first_phase ≡ first_phase linked.now) }
        ensures loader { IfOk result (λ n. n.loader ≡ loader_numbers linked.now) }
    {
        let numbers = kept(alloc, linked, linked.functions())?;
        Ok(numbers)
    }

    /// The number of a function of the run. The functions of the loader have one where the set uses them.
    pub fn function(&self, r: Ref) -> u32
        ensures { result ≡ (numbers_in self.now).function r }
    {
        match r {
            Ref::Own { unit, func } => own_from(
                self.owns.as_slice(),
                unit,
                count_at(self.imported.as_slice(), unit),
                func,
            ),
            Ref::Loader(call) => call_in(self.loader, call),
            Ref::Host(entry) => entry,
            Ref::Stub { unit, func } => {
                stub_number(
                    self.first_stub,
                    self.first_phase,
                    number_at(self.functions.as_slice(), unit, func),
                )
            }
        }
    }

    /// The number of the first function that is generated: that of the first phase of the first member.
    pub fn first_phase(&self) -> u32
        ensures { result ≡ self.now.first_phase }
    {
        self.first_phase
    }

    /// The numbers of what the merged module has for the functions of the loader, where the set uses them.
    pub fn loader(&self) -> Option<LoaderNumbers>
        ensures { result ≡ self.now.loader }
    {
        self.loader
    }

    /// The number of the function that number f of member m names.
    pub fn named(&self, m: u32, f: u32) -> u32
        ensures { result ≡ (numbers_in self.now).named m f }
    {
        number_at(self.functions.as_slice(), m, f)
    }

    /// The number of type t of member m.
    pub fn ty(&self, m: u32, t: u32) -> u32
        ensures { result ≡ (numbers_in self.now).ty m t }
    {
        number_at(self.types.as_slice(), m, t)
    }

    /// The number of global g of member m.
    pub fn global(&self, m: u32, g: u32) -> u32
        ensures { result ≡ (numbers_in self.now).global m g }
    {
        number_of(self.addresses.global(m, g))
    }

    /// The number of table t of member m.
    pub fn table(&self, m: u32, t: u32) -> u32
        ensures { result ≡ (numbers_in self.now).table m t }
    {
        number_of(self.addresses.table(m, t))
    }

    /// The number of element segment e of member m.
    pub fn elem(&self, m: u32, e: u32) -> u32
        ensures { result ≡ (numbers_in self.now).elem m e }
    {
        number_of(self.addresses.elem(m, e))
    }

    /// The number of data segment d of member m.
    pub fn segment(&self, m: u32, d: u32) -> u32
        ensures { result ≡ (numbers_in self.now).segment m d }
    {
        number_of(self.addresses.segment(m, d))
    }
}
