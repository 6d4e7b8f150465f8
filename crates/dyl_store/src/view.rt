// The members of a linked set as a view.
use crate::run_member::code_of;
use crate::world::World;
use std::alloc::Global;
use wasm_form::{Code, FuncType, Memory, Ref, Trap, Value};
use wasm_instance::copy_between;
use wasm_space::{Slots, Space};
use wasm_view::View;

impl<'m> View<'m> for World<'m> {
    ghost use Rattle.spec_loading.specs.spec_execution.Instances.{ModuleParts};
    ghost use Rattle.dyl_store.specs.Worlds.{seen_of};

    ghost Units = { ModuleParts };

    ghost seen = { seen_of };

    #[inline(always)]
    fn target(&self, unit: u32, f: u32) -> Ref {
        self.linked.function(unit, f)
    }

    #[inline(always)]
    fn code(&self, unit: u32, f: u32) -> &'m Code {
        let member = self.unit(unit);
        code_of(member.checked, member.imported, f)
    }

    #[inline(always)]
    fn room(&self, unit: u32, f: u32) -> u32 {
        let member = self.unit(unit);
        member.rooms[(f - member.imported) as usize]
    }

    #[inline(always)]
    fn type_of(&self, r: Ref) -> &'m FuncType {
        match r {
            Ref::Own { unit, func } => self.unit(unit).checked.func_type(func),
            Ref::Host(entry) => &self.linked.hosts()[entry as usize].ty,
            Ref::Loader(call) => self.linked.loader_type(call),
            Ref::Stub { unit, func } => self.unit(unit).checked.func_type(func),
        }
    }

    #[inline(always)]
    fn declared(&self, unit: u32, t: u32) -> &'m FuncType {
        &self.unit(unit).checked.module().types.items()[t as usize]
    }

    #[inline(always)]
    fn global(&self, unit: u32, g: u32) -> Value {
        self.globals[self.global_address(unit, g)]
    }

    #[inline(always)]
    fn set_global(&mut self, unit: u32, g: u32, v: Value) {
        let at = self.global_address(unit, g);
        self.globals[at] = v;
    }

    #[inline(always)]
    fn memory(&self) -> &Space {
        &self.memory
    }

    #[inline(always)]
    fn memory_store(&mut self, base: u32, offset: u32, len: u8, value: u64) -> Result<(), Trap> {
        self.memory.store(base, offset, len, value)
    }

    fn memory_copy(&mut self, to: u32, from: u32, n: u32) -> Result<(), Trap> {
        self.memory.copy(to, from, n)
    }

    fn memory_fill(&mut self, to: u32, byte: u8, n: u32) -> Result<(), Trap> {
        self.memory.fill(to, byte, n)
    }

    fn memory_put(&mut self, at: u32, bytes: &[u8]) -> Result<(), Trap> {
        self.memory.put(at, bytes)
    }

    fn memory_grow(&mut self, alloc: Global, delta: u32) -> Result<u32, Memory> {
        self.memory.grow(alloc, delta)
    }

    #[inline(always)]
    fn table(&self, unit: u32, t: u32) -> &Slots {
        &self.tables[self.table_address(unit, t)]
    }

    fn table_set(&mut self, unit: u32, t: u32, i: u32, value: Option<Ref>) -> Result<(), Trap> {
        let at = self.table_address(unit, t);
        self.tables[at].set(i, value)
    }

    fn table_fill(
        &mut self,
        unit: u32,
        t: u32,
        to: u32,
        value: Option<Ref>,
        n: u32,
    ) -> Result<(), Trap> {
        let at = self.table_address(unit, t);
        self.tables[at].fill(to, value, n)
    }

    fn table_grow(
        &mut self,
        alloc: Global,
        unit: u32,
        t: u32,
        delta: u32,
        value: Option<Ref>,
    ) -> Result<u32, Memory> {
        let at = self.table_address(unit, t);
        self.tables[at].grow(alloc, delta, value)
    }

    fn table_copy(
        &mut self,
        unit: u32,
        to: u32,
        from: u32,
        at: u32,
        start: u32,
        n: u32,
    ) -> Result<(), Trap> {
        let to = self.table_address(unit, to);
        let from = self.table_address(unit, from);
        copy_between(&mut self.tables, to, from, at, start, n)
    }

    fn table_init(
        &mut self,
        unit: u32,
        t: u32,
        e: u32,
        at: u32,
        start: u32,
        n: u32,
    ) -> Result<(), Trap> {
        let table = self.table_address(unit, t);
        let segment = self.elem_address(unit, e);
        self.tables[table].init(at, &self.elems[segment], start, n)
    }

    fn memory_init(&mut self, unit: u32, d: u32, at: u32, start: u32, n: u32) -> Result<(), Trap> {
        let segment = self.data_address(unit, d);
        self.memory.init(at, self.datas[segment], start, n)
    }

    fn drop_elem(&mut self, unit: u32, e: u32) {
        let segment = self.elem_address(unit, e);
        self.elems[segment].clear();
    }

    fn drop_data(&mut self, unit: u32, d: u32) {
        let segment = self.data_address(unit, d);
        self.datas[segment] = &[];
    }
}
