// What is kept of a set that links, and what it tells of the set.
ghost use Rattle.std.specs.Prelude.{◌≡◌, ◌<◌, ◌≤◌, ◌∷◌, [], IfOk, length, map, slice_get, is_some, Some, IsTrue};
ghost use Rattle.std.specs.List.{All};
ghost use Rattle.wasm_form.specs.declared.types.ValType.TheVariants.{I32};
ghost use Rattle.wasm_form.specs.declared.runtime.Ref.TheVariants as references;
ghost use Rattle.spec_loading.specs.spec_execution.Views as views;
ghost use Rattle.spec_loading.specs.spec_linking.Gathering.{IsSet};
ghost use Rattle.spec_loading.specs.spec_linking.Orders as orders;
ghost use Rattle.spec_loading.specs.spec_linking.LinkedSets.{hosts_of, function_ref, wasm_of};
ghost use Rattle.spec_loading.specs.spec_linking.Slots as linking;
ghost use Rattle.spec_loading.specs.spec_linking.Slots.{linked_plan};
ghost use Rattle.spec_loading.specs.spec_linking.Links.{Links, set_entry};
ghost use Rattle.spec_loading.specs.LoadedSet as loading;
ghost use Rattle.spec_loading.specs.Members as members;
ghost use Rattle.dyl_slots.specs.Fresh.{slot_at};
ghost use Rattle.dyl_slots.specs.Tables.{AreTables};
ghost use Rattle.dyl_slots.specs.host_table.Names.{host_name_of, HaveIntegers};
ghost use Rattle.dyl_slots.specs.dyl_scope.Scopes.{AreOf};
ghost use Rattle.dyl_slots.specs.dyl_search.Gathers.{member_of, set_of};
ghost use Rattle.dyl_link.specs.Sets.{linked_set, imported_globals_in, IsSupported};
ghost use Rattle.dyl_link.specs.Functions.{AreFunctions};
ghost use Rattle.dyl_link.specs.Parts.{AreTypes, IsLinked};

use crate::entry_and_layout::Found;
use crate::options::LinkOptions;
use dyl_slots::Tables;
use dyl_slots::dyl_plan::Plan;
use dyl_slots::dyl_scope::Symbols;
use dyl_slots::dyl_search::{ClosedSet, Member};
use dyl_slots::host_table::{HostName, HostNames};
use std::alloc::Global;
use std::marker::Model;
use wasm_form::{FuncType, List, LoaderCall, Memory, Module, Ref, ValType};

// The types of the functions of the loader: with two parameters, with one, and with none, each with one result, all of them i32.
#[derive(Drop)]
pub(crate) struct LoaderTypes {
    pub two: FuncType,
    pub one: FuncType,
    pub none: FuncType,
}

impl LoaderTypes {
    pub fn of(alloc: Global) -> Result<LoaderTypes, Memory>
        ensures { IfOk result (λ t. AreTypes t) }
    {
        let two = function_type(alloc, &[ValType::I32, ValType::I32])?;
        let one = function_type(alloc, &[ValType::I32])?;
        let none = function_type(alloc, &[])?;
        Ok(LoaderTypes { two, one, none })
    }
}

// The type of functions with these parameters and one result.
fn function_type(alloc: Global, params: &[ValType]) -> Result<FuncType, Memory>
    ensures { IfOk result (λ t. t ≡ record { params = params.now; results = I32 ∷ [] }) }
{
    let mut taken = Vec::new(alloc);
    for ty in params {
        taken.push(*ty)?;
    }
    let mut given = Vec::new(alloc);
    given.push(ValType::I32)?;
    Ok(FuncType {
        params: List::of(taken),
        results: List::of(given),
    })
}

// What is found of a set that links: the names that its members define, the types of the functions of the loader, and all else.
#[derive(Drop)]
pub(crate) struct Ready {
    pub symbols: Symbols,
    pub types: LoaderTypes,
    pub found: Found,
}

// What a linked set is made of: the set, how it is linked, the host functions that are declared, and what is found of these.
#[derive(Drop)]
pub(crate) struct Parts {
    pub set: ClosedSet,
    pub options: LinkOptions,
    pub names: HostNames,
    pub ready: Ready,
}

/// A closed set that links, with how it is linked and the host functions that are declared. It keeps its plan, its symbols, its entry, what
/// each import is, the slots of functions, and the initial values of cells.
#[derive(Drop)]
pub struct Linked {
    parts: Parts,
}

impl Model for Linked {
    ghost use Rattle.std.specs.Coded.{codes};
    ghost use Rattle.wasm_form.specs.contracts.module.Module as modules;
    ghost use Rattle.spec_loading.specs.spec_linking.LinkedSets.{LinkedSet};
    ghost use Rattle.dyl_link.specs.Parts.{set_in, IsLinked};

    ghost Value = { LinkedSet };

    ghost coded = { Prim.hlevel (codes, modules.the_row.coded) };

    ghost view = { λ l. set_in l.parts };

    ghost invariant = { λ l. IsLinked (set_in l.parts) l.parts.ready };
}

// The slot at a place, if there is one.
fn slot_at(slots: &[Option<u32>], n: u32) -> Option<u32>
    ensures { result ≡ slot_at slots.now n }
{
    match slots.get(n as usize) {
        Some(slot) => *slot,
        None => None,
    }
}

impl Linked {
    // The set that is linked so, of which this is found.
    pub(crate) fn of(set: ClosedSet, options: LinkOptions, names: HostNames, ready: Ready) -> Linked
        requires { IsLinked (linked_set set options names) ready }
        ensures { result ≡ linked_set set options names }
    {
        Linked {
            parts: Parts {
                set,
                options,
                names,
                ready,
            },
        }
    }

    // The tables of slots and cells.
    fn tables(&self) -> &Tables
        ensures { AreTables self.now result.now }
    {
        &self.parts.ready.found.placed.tables
    }

    /// It is a set, and it links. The call does nothing: a proof gets these facts by it.
    pub fn links(&self)
        ensures shape { IsSet self.now.set }
        ensures links { Links self.now }
    {
        let _parts = &self.parts;
    }

    /// The memory has 16,384 pages at most. The call does nothing: a proof gets this fact by it.
    pub fn has_few_pages(&self)
        ensures { (linked_plan self.now).pages_max ≤ 16384 }
    {
        let _parts = &self.parts;
    }

    /// The host names have integers alone, so its host functions have types that modules may use. The call does nothing: a proof gets these facts
    /// by it.
    pub fn hosts_have_integers(&self)
        ensures integers { HaveIntegers self.now.names }
        ensures supported { All IsSupported (hosts_of self.now) }
    {
        let _parts = &self.parts;
    }

    /// The closed set.
    pub fn set(&self) -> &ClosedSet
        ensures { set_of result.now ≡ self.now.set }
    {
        &self.parts.set
    }

    /// The members of the set, by their numbers.
    pub fn members(&self) -> &[Member]
        ensures { map member_of result.now ≡ self.now.set.members }
    {
        self.set().members.items()
    }

    /// How many members the set has.
    pub fn member_count(&self) -> u32
        ensures count { result ≡ length self.now.set.members }
        ensures some { 0 < result }
        ensures few { result ≤ 256 }
    {
        self.links();
        self.members().len() as u32
    }

    /// Member m.
    pub fn member(&self, m: u32) -> &Member
        requires { m < length self.now.set.members }
        ensures { slice_get self.now.set.members m ≡ Some (member_of result.now) }
    {
        &self.members()[m as usize]
    }

    /// The members that start with the main module, which is the first, in breadth-first order.
    pub fn startup(&self) -> &[u32]
        ensures { result.now ≡ self.now.set.startup }
    {
        self.set().startup.items()
    }

    /// The module of member m.
    pub fn module(&self, m: u32) -> &Module
        requires { m < length self.now.set.members }
        ensures { wasm_of self.now m ≡ Some result.now }
    {
        self.member(m).checked.module()
    }

    /// Where the members' regions lie in memory and in the table.
    pub fn plan(&self) -> &Plan
        ensures { result.now ≡ linked_plan self.now }
    {
        &self.parts.ready.found.placed.plan
    }

    /// The address at which the memory region of member m begins.
    pub fn memory_base(&self, m: u32) -> u32
        requires { m < length self.now.set.members }
        ensures { linking.memory_base self.now m ≡ Some result }
    {
        self.plan().base(m)
    }

    /// The index at which the table region of member m begins.
    pub fn table_base(&self, m: u32) -> u32
        requires { m < length self.now.set.members }
        ensures { linking.table_base self.now m ≡ Some result }
    {
        self.plan().table_base(m)
    }

    /// The names that the members define, and the orders in which they are gone through.
    pub fn symbols(&self) -> &Symbols
        ensures { AreOf self.now.set result.now }
    {
        &self.parts.ready.symbols
    }

    /// The entry, a function of the main module, by its number.
    pub fn entry(&self) -> u32
        ensures { set_entry self.now.set.members ≡ Some result }
    {
        self.parts.ready.found.entry
    }

    /// The function that number f of member m names.
    #[inline(always)]
    pub fn function(&self, m: u32, f: u32) -> Ref
        requires { IsTrue (is_some (function_ref self.now m f)) }
        ensures { Some result ≡ function_ref self.now m f }
    {
        self.functions()[m as usize].items()[f as usize]
    }

    /// The function that number f of member m names, if it names one.
    pub fn find_function(&self, m: u32, f: u32) -> Option<Ref>
        ensures { result ≡ function_ref self.now m f }
    {
        match self.functions().get(m as usize) {
            Some(refs) => refs.items().get(f as usize).copied(),
            None => None,
        }
    }

    /// The functions that the numbers of each member name, in order.
    #[inline(always)]
    pub fn functions(&self) -> &[List<Ref>]
        ensures { AreFunctions self.now result.now }
    {
        self.parts.ready.found.placed.functions.as_slice()
    }

    /// The slot of a function, if it has one.
    pub fn slot(&self, r: Ref) -> Option<u32>
        ensures { result ≡ linking.slot_of self.now r }
    {
        match r {
            Ref::Own { unit, func } => self.own_slot(unit, func),
            Ref::Loader(call) => self.loader_slot(call),
            Ref::Host(n) => slot_at(self.tables().host_slots.as_slice(), n),
            Ref::Stub { .. } => None,
        }
    }

    /// The address of data at a place of the memory region of member m.
    pub fn address(&self, m: u32, offset: u32) -> u32
        requires { m < length self.now.set.members }
        ensures { Some result ≡ linking.address_of self.now m offset }
    {
        self.memory_base(m).wrapping_add(offset)
    }

    /// The initial value of imported global g of member m.
    pub fn cell(&self, m: u32, g: u32) -> u32
        requires { g < imported_globals_in self.now m }
        ensures { Some result ≡ linking.imported_number self.now m g }
    {
        self.links();
        match self.find_cell(m, g) {
            Some(value) => value,
            None => unreachable!(),
        }
    }

    /// The initial value of imported global g of member m, if it has one.
    pub fn find_cell(&self, m: u32, g: u32) -> Option<u32>
        ensures { result ≡ linking.imported_number self.now m g }
    {
        match self.tables().cells.as_slice().get(m as usize) {
            Some(values) => slot_at(values.items(), g),
            None => None,
        }
    }

    /// The members that member m reaches through needed names, breadth first.
    pub fn closure(&self, m: u32) -> &[u32]
        requires { m < length self.now.set.members }
        ensures { result.now ≡ orders.closure self.now.set m }
    {
        self.symbols().closure(m)
    }

    /// The members that are constructed where member m is opened, in order: each after those that it needs.
    pub fn construct_order(&self, m: u32) -> &[u32]
        requires { m < length self.now.set.members }
        ensures { result.now ≡ orders.post_order self.now.set m }
    {
        self.symbols().post_order(m)
    }

    /// The host functions that the members import, by their entries.
    pub fn hosts(&self) -> &[HostName]
        ensures { map host_name_of result.now ≡ hosts_of self.now }
    {
        self.parts.ready.found.hosts.as_slice()
    }

    /// The type of a function of the loader.
    pub fn loader_type(&self, call: LoaderCall) -> &FuncType
        ensures { result.now ≡ views.loader_type call }
    {
        let types = &self.parts.ready.types;
        match call {
            LoaderCall::Dlopen | LoaderCall::Dlsym => &types.two,
            LoaderCall::Dlclose => &types.one,
            LoaderCall::Dlerror => &types.none,
        }
    }

    /// The functions of member m that have fresh slots, in slot order.
    pub fn fresh(&self, m: u32) -> &[u32]
        requires { m < length self.now.set.members }
        ensures { result.now ≡ linking.fresh_of self.now m }
    {
        self.tables().members.as_slice()[m as usize].fresh.items()
    }

    /// The first of the fresh slots of member m.
    pub fn first_slot(&self, m: u32) -> u32
        requires { m < length self.now.set.members }
        ensures { result ≡ loading.first_slot self.now m }
    {
        self.tables().members.as_slice()[m as usize].first_slot
    }

    /// The functions of the loader and of the host that have slots, which come after the members' fresh ones, in slot order.
    pub fn outside(&self) -> &[Ref]
        ensures { result.now ≡ linking.outside_slots self.now }
    {
        self.tables().outside.as_slice()
    }

    /// The initial entries of the table.
    pub fn table_entries(&self) -> u32
        ensures { result ≡ linking.table_entries self.now }
    {
        self.tables().table_entries
    }

    /// The most pages of memory.
    pub fn pages_max(&self) -> u32
        ensures { result ≡ (linked_plan self.now).pages_max }
    {
        self.plan().pages_max()
    }

    /// The most entries of the table.
    pub fn table_max(&self) -> u32
        ensures { result ≡ linking.table_most self.now }
    {
        self.tables().table_max
    }

    /// Whether a member imports a function of the loader, as a function or by its slot.
    pub fn uses_loader(&self) -> bool
        ensures { result ≡ members.uses_loader self.now }
    {
        self.parts.ready.found.uses_loader
    }

    fn own_slot(&self, m: u32, f: u32) -> Option<u32>
        ensures { result ≡ linking.slot_of self.now (references.Own m f) }
    {
        match self.tables().members.as_slice().get(m as usize) {
            Some(member) => slot_at(member.slots.items(), f),
            None => None,
        }
    }

    fn loader_slot(&self, call: LoaderCall) -> Option<u32>
        ensures { result ≡ linking.slot_of self.now (references.Loader call) }
    {
        let slots = &self.tables().loader_slots;
        match call {
            LoaderCall::Dlopen => slots.opens,
            LoaderCall::Dlsym => slots.searches,
            LoaderCall::Dlclose => slots.closes,
            LoaderCall::Dlerror => slots.errors,
        }
    }
}
