// The instance as a view of unit 0.
use crate::imports::named;
use crate::instance::Instance;
use crate::tables::copy_between;
use std::alloc::Global;
use wasm_form::{Code, FuncType, Memory, Ref, Trap, Value};
use wasm_space::{Slots, Space};
use wasm_view::View;

impl<'m> View<'m> for Instance<'m> {
    ghost use Rattle.spec_safety.specs.spec_execution.Instances.{ModuleParts};
    ghost use Rattle.wasm_instance.specs.States.{seen_of};

    ghost Units = { ModuleParts };

    ghost seen = { seen_of };

    #[inline(always)]
    fn target(&self, _: u32, f: u32) -> Ref {
        named(self.imported, f)
    }

    #[inline(always)]
    fn code(&self, _: u32, f: u32) -> &'m Code {
        &self.checked.module().codes.items()[(f - self.imported) as usize]
    }

    #[inline(always)]
    fn room(&self, _: u32, f: u32) -> u32 {
        self.rooms[(f - self.imported) as usize]
    }

    #[inline(always)]
    fn type_of(&self, r: Ref) -> &'m FuncType {
        match r {
            Ref::Own { func, .. } => self.checked.func_type(func),
            Ref::Host(entry) => {
                &self.checked.module().types.items()[self.host_types[entry as usize] as usize]
            }
            Ref::Loader(_) => unreachable!(),
            Ref::Stub { .. } => unreachable!(),
        }
    }

    #[inline(always)]
    fn declared(&self, _: u32, t: u32) -> &'m FuncType {
        &self.checked.module().types.items()[t as usize]
    }

    #[inline(always)]
    fn global(&self, _: u32, g: u32) -> Value {
        self.globals[g as usize]
    }

    #[inline(always)]
    fn set_global(&mut self, _: u32, g: u32, v: Value) {
        self.globals[g as usize] = v;
    }

    #[inline(always)]
    fn memory(&self) -> &Space {
        &self.memory
    }

    #[inline(always)]
    fn memory_store(&mut self, base: u32, offset: u32, len: u8, value: u64) -> Result<(), Trap> {
        self.memory.store(base, offset, len, value)
    }

    fn memory_copy(&mut self, to: u32, from: u32, n: u32) -> Result<(), Trap> {
        self.memory.copy(to, from, n)
    }

    fn memory_fill(&mut self, to: u32, byte: u8, n: u32) -> Result<(), Trap> {
        self.memory.fill(to, byte, n)
    }

    fn memory_put(&mut self, at: u32, bytes: &[u8]) -> Result<(), Trap> {
        self.memory.put(at, bytes)
    }

    fn memory_grow(&mut self, alloc: Global, delta: u32) -> Result<u32, Memory> {
        self.memory.grow(alloc, delta)
    }

    #[inline(always)]
    fn table(&self, _: u32, t: u32) -> &Slots {
        &self.tables[t as usize]
    }

    fn table_set(&mut self, _: u32, t: u32, i: u32, value: Option<Ref>) -> Result<(), Trap> {
        self.tables[t as usize].set(i, value)
    }

    fn table_fill(
        &mut self,
        _: u32,
        t: u32,
        to: u32,
        value: Option<Ref>,
        n: u32,
    ) -> Result<(), Trap> {
        self.tables[t as usize].fill(to, value, n)
    }

    fn table_grow(
        &mut self,
        alloc: Global,
        _: u32,
        t: u32,
        delta: u32,
        value: Option<Ref>,
    ) -> Result<u32, Memory> {
        self.tables[t as usize].grow(alloc, delta, value)
    }

    fn table_copy(
        &mut self,
        _: u32,
        to: u32,
        from: u32,
        at: u32,
        start: u32,
        n: u32,
    ) -> Result<(), Trap> {
        copy_between(&mut self.tables, to as usize, from as usize, at, start, n)
    }

    fn table_init(
        &mut self,
        _: u32,
        t: u32,
        e: u32,
        at: u32,
        start: u32,
        n: u32,
    ) -> Result<(), Trap> {
        self.tables[t as usize].init(at, &self.elems[e as usize], start, n)
    }

    fn memory_init(&mut self, _: u32, d: u32, at: u32, start: u32, n: u32) -> Result<(), Trap> {
        self.memory.init(at, self.datas[d as usize], start, n)
    }

    fn drop_elem(&mut self, _: u32, e: u32) {
        self.elems[e as usize].clear();
    }

    fn drop_data(&mut self, _: u32, d: u32) {
        self.datas[d as usize] = &[];
    }
}
