// The host functions that imports name.
ghost use Rattle.std.specs.Prelude.{◌≡◌, ◌<◌, ◌≤◌, ◌+◌, ◌^◌, ◌++◌, ◌∷◌, [], map, length, find, slice_get, vec_capacity, OnOk, OnErr, None};
ghost use Rattle.std.specs.List.{position_from};
ghost use Rattle.std.specs.Option.{option_copied, option_map};
ghost use Rattle.spec_loading.specs.spec_linking.LinkedSets.{is_named};
ghost use Rattle.host_table.specs.Names.{host_name_of};
ghost use Rattle.host_table.specs.Numbers.{number_of, with_number};
ghost use Rattle.dyl_imports.specs.Hosts.{with_host};

use host_table::{HostName, HostNumbers};
use std::alloc::Global;
use std::marker::Model;
use wasm_form::{FuncType, Memory};

// Host functions, each module and name once, with their numbers.
#[derive(Drop)]
pub struct Hosts {
    list: Vec<HostName>,
    numbers: HostNumbers,
}

impl Model for Hosts {
    ghost use Rattle.std.specs.Prelude.{List, map};
    ghost use Rattle.spec_loading.specs.spec_runtime.Names as names;
    ghost use Rattle.host_table.specs.Names.{host_name_of};
    ghost use Rattle.host_table.specs.Numbered.{AreNumbered};

    ghost Value = { List names.HostName };

    ghost view = { λ h. map host_name_of h.list.items };

    ghost invariant = { λ h. AreNumbered (λ n. n) h.numbers (map host_name_of h.list.items) };
}

impl Hosts {
    // No host function is named.
    pub fn new(alloc: Global) -> Hosts
        ensures { result ≡ [] }
    {
        Hosts {
            list: Vec::new(alloc),
            numbers: HostNumbers::new(alloc),
        }
    }

    // The number of a host function.
    pub fn find(&self, from: &str, name: &str) -> Option<u32>
        ensures { result ≡ position_from (is_named from.now name.now) 0 self.now }
    {
        self.numbers.find(from, name)
    }

    // The type of a host function.
    pub fn host_type(&self, from: &str, name: &str) -> Option<&FuncType>
        ensures { option_copied result ≡ option_map (λ h. h.ty) (find (is_named from.now name.now) self.now) }
    {
        match self.find(from, name) {
            Some(n) => type_at(&self.list, n),
            None => None,
        }
    }

    pub fn list(&self) -> &[HostName]
        ensures { map host_name_of result.now ≡ self.now }
    {
        self.list.as_slice()
    }

    pub fn into_list(self) -> Vec<HostName>
        ensures { map host_name_of result.items ≡ self }
    {
        self.list
    }

    // One host function more, unless its module and name are there.
    pub fn add(
        &mut self,
        alloc: Global,
        from: &str,
        name: &str,
        ty: &FuncType,
    ) -> Result<(), Memory>
        requires { length self.old < 2 ^ 32 }
        ensures exact { OnOk result (self.new ≡ with_host self.old (record { module_name = from.now; name = name.now; ty = ty.now })) }
        ensures few { OnOk result (length self.new ≤ length self.old + 1) }
    {
        match self.find(from, name) {
            Some(_) => Ok(()),
            None => self.push(alloc, from, name, ty),
        }
    }

    fn push(&mut self, alloc: Global, from: &str, name: &str, ty: &FuncType) -> Result<(), Memory>
        requires new { position_from (is_named from.now name.now) 0 self.old ≡ None }
        requires few { length self.old < 2 ^ 32 }
        ensures { OnOk result (self.new ≡ self.old ++ record { module_name = from.now; name = name.now; ty = ty.now } ∷ []) }
    {
        let host = HostName::new(alloc, from, name, ty)?;
        prepare(alloc, &host, &mut self.list, &mut self.numbers)?;
        match self.list.push(host) {
            Ok(()) => Ok(()),
            Err(_) => unreachable!(),
        }
    }
}

// Makes room for one host function more, and notes the number that it will have.
fn prepare(
    alloc: Global,
    host: &HostName,
    list: &mut Vec<HostName>,
    numbers: &mut HostNumbers,
) -> Result<(), Memory>
    requires new { number_of numbers.old host.now.«module» host.now.name ≡ None }
    requires few { length list.old.items < 2 ^ 32 }
    ensures list { list.new.items ≡ list.old.items }
    ensures room { OnOk result (length list.new.items < vec_capacity list.new) }
    ensures ok { OnOk result (numbers.new ≡ with_number host.now.«module» host.now.name (length list.old.items) numbers.old) }
    ensures err { OnErr result (numbers.new ≡ numbers.old) }
{
    list.reserve(1)?;
    let number = list.len() as u32;
    numbers.add(alloc, host.module.as_str(), host.name.as_str(), number)
}

// The type of a host function at a place.
fn type_at(list: &[HostName], n: u32) -> Option<&FuncType>
    ensures { option_copied result ≡ option_map (λ h. h.ty) (slice_get list.now n) }
{
    match list.get(n as usize) {
        Some(host) => Some(&host.ty),
        None => None,
    }
}
