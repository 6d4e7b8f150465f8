// The members of a linked set over one store.
ghost use Rattle.std.specs.Prelude.{◌≡◌, ◌<◌, length, Some};
ghost use Rattle.spec_loading.specs.Members.{set_instances, set_view};
ghost use Rattle.dyl_store.specs.Units.{IsMember, IsUnit};
ghost use Rattle.dyl_store.specs.Stores.{IsDroppedTold};
ghost use Rattle.dyl_store.specs.Worlds.{HasPlaces};

use crate::run_member::Unit;
use dyl_link::Linked;
use std::marker::Model;
use wasm_form::{Ref, Value};
use wasm_space::{Slots, Space};

// The members of a linked set, what changes of them in a run by its addresses, and the memory. Contracts see it as a `WorldState`.
#[derive(Drop)]
pub(crate) struct World<'m> {
    pub linked: &'m Linked,
    pub units: Vec<Unit<'m>>,
    pub globals: Vec<Value>,
    pub tables: Vec<Slots>,
    pub elems: Vec<Vec<Option<Ref>>>,
    pub datas: Vec<&'m [u8]>,
    pub memory: Space,
}

impl<'m> Model for World<'m> {
    ghost use Rattle.wasm_form.specs.contracts.module.Module as modules;
    ghost use Rattle.std.specs.Coded.{codes};
    ghost use Rattle.dyl_store.specs.Worlds.{WorldState};
    ghost use Rattle.dyl_store.specs.Units.{world_of, IsWorld};

    ghost Value = { WorldState };

    ghost coded = { Prim.hlevel (codes, modules.the_row.coded) };

    ghost view = { world_of };

    ghost invariant = { IsWorld };
}

impl<'m> World<'m> {
    // A member.
    #[inline(always)]
    pub fn unit(&self, m: u32) -> &Unit<'m>
        requires { IsMember self.now.linked m }
        ensures unit { IsUnit self.now.linked m result.now }
        ensures places { HasPlaces (set_instances self.now.linked) self.now.store }
    {
        &self.units[m as usize]
    }

    // The address of a global of a member.
    #[inline(always)]
    pub fn global_address(&self, m: u32, g: u32) -> usize
        requires { g < ((set_instances self.now.linked).counts m).globals }
        ensures found { (set_instances self.now.linked).global_at m g ≡ Some result }
        ensures inside { result < length self.now.store.globals }
    {
        self.unit(m).globals[g as usize] as usize
    }

    // The address of a table of a member.
    #[inline(always)]
    pub fn table_address(&self, m: u32, t: u32) -> usize
        requires { t < ((set_instances self.now.linked).counts m).tables }
        ensures found { (set_instances self.now.linked).table_at m t ≡ Some result }
        ensures inside { result < length self.now.store.tables }
    {
        self.unit(m).tables[t as usize] as usize
    }

    // The address of an element segment of a member.
    #[inline(always)]
    pub fn elem_address(&self, m: u32, e: u32) -> usize
        requires { e < ((set_instances self.now.linked).counts m).elems }
        ensures found { (set_instances self.now.linked).elem_at m e ≡ Some result }
        ensures inside { result < length self.now.store.elems }
    {
        self.unit(m).first_elem as usize + e as usize
    }

    // The address of a data segment of a member.
    #[inline(always)]
    pub fn data_address(&self, m: u32, d: u32) -> usize
        requires { d < ((set_instances self.now.linked).counts m).datas }
        ensures found { (set_instances self.now.linked).data_at m d ≡ Some result }
        ensures inside { result < length self.now.store.datas }
    {
        self.unit(m).first_data as usize + d as usize
    }
    // Whether an element segment of a member is empty.
    pub fn elem_dropped(&self, m: u32, e: u32) -> bool
        requires { e < ((set_instances self.now.linked).counts m).elems }
        ensures { IsDroppedTold result ((set_view self.now.linked).elem self.now.store m e) }
    {
        self.elems[self.elem_address(m, e)].is_empty()
    }

    // Whether a data segment of a member is empty.
    pub fn data_dropped(&self, m: u32, d: u32) -> bool
        requires { d < ((set_instances self.now.linked).counts m).datas }
        ensures { IsDroppedTold result ((set_view self.now.linked).bytes self.now.store m d) }
    {
        self.datas[self.data_address(m, d)].is_empty()
    }
}
