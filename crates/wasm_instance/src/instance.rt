// The instance of a module.
use std::marker::Model;
use wasm_check::Checked;
use wasm_form::{Ref, Value};
use wasm_space::{Slots, Space};

/// A module that imports functions alone, with what changes of it in a run. Contracts see it as an `InstanceState`.
#[derive(Drop)]
pub struct Instance<'m> {
    pub(crate) checked: &'m Checked,
    pub(crate) imported: u32,
    pub(crate) host_types: Vec<u32>,
    pub(crate) rooms: Vec<u32>,
    pub(crate) globals: Vec<Value>,
    pub(crate) tables: Vec<Slots>,
    pub(crate) elems: Vec<Vec<Option<Ref>>>,
    pub(crate) datas: Vec<&'m [u8]>,
    pub(crate) memory: Space,
}

impl<'m> Model for Instance<'m> {
    ghost use Rattle.wasm_form.specs.contracts.module.Module as modules;
    ghost use Rattle.std.specs.Coded.{codes};
    ghost use Rattle.wasm_instance.specs.States.{InstanceState};

    ghost Value = { InstanceState };

    ghost coded = { Prim.hlevel (codes, modules.the_row.coded) };

    ghost use Rattle.wasm_instance.specs.Kept.{state_of, IsInstance};

    ghost view = { state_of };

    ghost invariant = { IsInstance };
}
