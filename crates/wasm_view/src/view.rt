// What a machine is given: code that is fixed, and a store that its steps change (WebAssembly Core 2.0, section 4.2).
ghost use Rattle.std.specs.Prelude.{◌≡◌, ◌<◌, ℕ, Some, IfSome, IsSome, length, min};
ghost use Rattle.spec_execution.specs.spec_runtime.Memories.{stored, copied, filled, written, initialized, pages, grown};
ghost use Rattle.spec_execution.specs.spec_runtime.Tables.{entry_set, entries_filled, entries_copied_from, entries_initialized, entries_grown};
ghost use Rattle.spec_execution.specs.spec_binary.Indices.{declared_locals};
ghost use Rattle.spec_execution.specs.Views.{type_of};
ghost use Rattle.spec_execution.specs.Limits.{room_of};
ghost use Rattle.wasm_space.specs.Access.{IsAccessLength, ChangesOrTraps, GrowsOrStays};
ghost use Rattle.wasm_view.specs.Seen.{Seen, table_in, elem_in};
ghost use Rattle.wasm_view.specs.Tables.{ChangesTable, GrowsTable};

use std::alloc::Global;
use wasm_form::{Code, FuncType, Memory, Ref, Trap, Value};
use wasm_space::{Slots, Space};

/// The functions, types, globals, tables and segments of the units of a run, each by a number of its unit, and the memory
/// that they share. Contracts see it as a `Seen`: a view of the definitions of execution, which is fixed, and the units and the
/// memory, which change.
pub trait View<'m> {
    /// What changes of the units.
    ghost Units: { Type 0 };
    /// What is fixed, the units and the memory.
    ghost seen: { Self → Seen Units };

    /// The function that a number of a unit names.
    fn target(&self, unit: u32, f: u32) -> Ref
        requires { f < ((seen self.now).fixed.counts unit).functions }
        ensures { Some result ≡ (seen self.now).fixed.target unit f };

    /// The code of a function that a unit defines.
    fn code(&self, unit: u32, f: u32) -> &'m Code
        requires { IsSome ((seen self.now).fixed.code unit f) }
        ensures locals { IfSome ((seen self.now).fixed.code unit f) (λ x. x.locals ≡ declared_locals result.now.locals) }
        ensures body { IfSome ((seen self.now).fixed.code unit f) (λ x. x.body ≡ result.now.body.list) };

    /// The room of its activations: parameters, locals and the greatest height of its stack together, or 4,294,967,295 where
    /// that is more.
    fn room(&self, unit: u32, f: u32) -> u32
        requires { IsSome ((seen self.now).fixed.code unit f) }
        ensures { result ≡ min (room_of (seen self.now).fixed unit f) 4294967295 };

    /// The type of a function that there is.
    fn type_of(&self, r: Ref) -> &'m FuncType
        requires { IsSome (type_of (seen self.now).fixed r) }
        ensures { Some result.now ≡ type_of (seen self.now).fixed r };

    /// A type that a unit declares.
    fn declared(&self, unit: u32, t: u32) -> &'m FuncType
        requires { t < ((seen self.now).fixed.counts unit).types }
        ensures { Some result.now ≡ (seen self.now).fixed.declared unit t };

    fn global(&self, unit: u32, g: u32) -> Value
        requires { g < ((seen self.now).fixed.counts unit).globals }
        ensures { Some result ≡ (seen self.now).fixed.global (seen self.now).units unit g };

    fn set_global(&mut self, unit: u32, g: u32, v: Value)
        requires { g < ((seen self.old).fixed.counts unit).globals }
        ensures changes { (seen self.new).units ≡ (seen self.old).fixed.set_global (seen self.old).units unit g v }
        ensures memory { (seen self.new).memory ≡ (seen self.old).memory }
        ensures fixed { (seen self.new).fixed ≡ (seen self.old).fixed };

    fn memory(&self) -> &Space
        ensures { result.now ≡ (seen self.now).memory };

    /// Writes the lowest `len` bytes of a number at `base + offset`, as `Space::store` does.
    fn memory_store(&mut self, base: u32, offset: u32, len: u8, value: u64) -> Result<(), Trap>
        requires { IsAccessLength len }
        ensures memory { ChangesOrTraps Trap.MemoryBounds (seen self.old).memory (stored (seen self.old).memory base offset len value) result (seen self.new).memory }
        ensures others { (seen self.new).units ≡ (seen self.old).units }
        ensures fixed { (seen self.new).fixed ≡ (seen self.old).fixed };

    /// Copies bytes, as `Space::copy` does.
    fn memory_copy(&mut self, to: u32, from: u32, n: u32) -> Result<(), Trap>
        ensures memory { ChangesOrTraps Trap.MemoryBounds (seen self.old).memory (copied (seen self.old).memory to from n) result (seen self.new).memory }
        ensures others { (seen self.new).units ≡ (seen self.old).units }
        ensures fixed { (seen self.new).fixed ≡ (seen self.old).fixed };

    /// Sets bytes to one value, as `Space::fill` does.
    fn memory_fill(&mut self, to: u32, byte: u8, n: u32) -> Result<(), Trap>
        ensures memory { ChangesOrTraps Trap.MemoryBounds (seen self.old).memory (filled (seen self.old).memory to byte n) result (seen self.new).memory }
        ensures others { (seen self.new).units ≡ (seen self.old).units }
        ensures fixed { (seen self.new).fixed ≡ (seen self.old).fixed };

    /// Writes all the bytes at an address, or traps and changes nothing.
    fn memory_put(&mut self, at: u32, bytes: &[u8]) -> Result<(), Trap>
        ensures memory { ChangesOrTraps Trap.MemoryBounds (seen self.old).memory (written (seen self.old).memory at bytes.now) result (seen self.new).memory }
        ensures others { (seen self.new).units ≡ (seen self.old).units }
        ensures fixed { (seen self.new).fixed ≡ (seen self.old).fixed };

    /// Adds pages, as `Space::grow` does.
    fn memory_grow(&mut self, alloc: Global, delta: u32) -> Result<u32, Memory>
        ensures memory { GrowsOrStays (seen self.old).memory (grown (seen self.old).memory delta) (pages (seen self.old).memory) result (seen self.new).memory }
        ensures others { (seen self.new).units ≡ (seen self.old).units }
        ensures fixed { (seen self.new).fixed ≡ (seen self.old).fixed };

    fn table(&self, unit: u32, t: u32) -> &Slots
        requires { t < ((seen self.now).fixed.counts unit).tables }
        ensures { Some result.now ≡ (seen self.now).fixed.table (seen self.now).units unit t };

    /// Sets an entry, as `Slots::set` does.
    fn table_set(&mut self, unit: u32, t: u32, i: u32, value: Option<Ref>) -> Result<(), Trap>
        requires { t < ((seen self.old).fixed.counts unit).tables }
        ensures table { IfSome (table_in (seen self.old) unit t) (λ x. ChangesTable (seen self.old).fixed (seen self.old).units unit t (entry_set x i value) result (seen self.new).units) }
        ensures memory { (seen self.new).memory ≡ (seen self.old).memory }
        ensures fixed { (seen self.new).fixed ≡ (seen self.old).fixed };

    /// Sets entries to one value, as `Slots::fill` does.
    fn table_fill(
        &mut self,
        unit: u32,
        t: u32,
        to: u32,
        value: Option<Ref>,
        n: u32,
    ) -> Result<(), Trap>
        requires { t < ((seen self.old).fixed.counts unit).tables }
        ensures table { IfSome (table_in (seen self.old) unit t) (λ x. ChangesTable (seen self.old).fixed (seen self.old).units unit t (entries_filled x to value n) result (seen self.new).units) }
        ensures memory { (seen self.new).memory ≡ (seen self.old).memory }
        ensures fixed { (seen self.new).fixed ≡ (seen self.old).fixed };

    /// Adds entries, as `Slots::grow` does.
    fn table_grow(
        &mut self,
        alloc: Global,
        unit: u32,
        t: u32,
        delta: u32,
        value: Option<Ref>,
    ) -> Result<u32, Memory>
        requires { t < ((seen self.old).fixed.counts unit).tables }
        ensures table { IfSome (table_in (seen self.old) unit t) (λ x. GrowsTable (seen self.old).fixed (seen self.old).units unit t (entries_grown x delta value) (length x.entries) result (seen self.new).units) }
        ensures memory { (seen self.new).memory ≡ (seen self.old).memory }
        ensures fixed { (seen self.new).fixed ≡ (seen self.old).fixed };

    /// Copies `n` entries from place `start` of table `from` to place `at` of table `to`, as `Slots::copy_from` does, and as
    /// `Slots::copy` does within one table.
    fn table_copy(
        &mut self,
        unit: u32,
        to: u32,
        from: u32,
        at: u32,
        start: u32,
        n: u32,
    ) -> Result<(), Trap>
        requires to { to < ((seen self.old).fixed.counts unit).tables }
        requires from { from < ((seen self.old).fixed.counts unit).tables }
        ensures table { IfSome (table_in (seen self.old) unit to) (λ x. IfSome (table_in (seen self.old) unit from) (λ y. ChangesTable (seen self.old).fixed (seen self.old).units unit to (entries_copied_from x at y start n) result (seen self.new).units)) }
        ensures memory { (seen self.new).memory ≡ (seen self.old).memory }
        ensures fixed { (seen self.new).fixed ≡ (seen self.old).fixed };

    /// Writes `n` entries of element segment `e`, from place `start` of it on, at place `at` of table `t`, as `Slots::init`
    /// does.
    fn table_init(
        &mut self,
        unit: u32,
        t: u32,
        e: u32,
        at: u32,
        start: u32,
        n: u32,
    ) -> Result<(), Trap>
        requires table { t < ((seen self.old).fixed.counts unit).tables }
        requires elem { e < ((seen self.old).fixed.counts unit).elems }
        ensures table { IfSome (table_in (seen self.old) unit t) (λ x. IfSome (elem_in (seen self.old) unit e) (λ items. ChangesTable (seen self.old).fixed (seen self.old).units unit t (entries_initialized x at items start n) result (seen self.new).units)) }
        ensures memory { (seen self.new).memory ≡ (seen self.old).memory }
        ensures fixed { (seen self.new).fixed ≡ (seen self.old).fixed };

    /// Writes `n` bytes of data segment `d`, from place `start` of it on, at an address, as `Space::init` does.
    fn memory_init(&mut self, unit: u32, d: u32, at: u32, start: u32, n: u32) -> Result<(), Trap>
        requires { d < ((seen self.old).fixed.counts unit).datas }
        ensures memory { IfSome ((seen self.old).fixed.bytes (seen self.old).units unit d) (λ bytes. ChangesOrTraps Trap.MemoryBounds (seen self.old).memory (initialized (seen self.old).memory at bytes start n) result (seen self.new).memory) }
        ensures others { (seen self.new).units ≡ (seen self.old).units }
        ensures fixed { (seen self.new).fixed ≡ (seen self.old).fixed };

    /// Makes an element segment empty.
    fn drop_elem(&mut self, unit: u32, e: u32)
        requires { e < ((seen self.old).fixed.counts unit).elems }
        ensures changes { (seen self.new).units ≡ (seen self.old).fixed.drop_elem (seen self.old).units unit e }
        ensures memory { (seen self.new).memory ≡ (seen self.old).memory }
        ensures fixed { (seen self.new).fixed ≡ (seen self.old).fixed };

    /// Makes a data segment empty.
    fn drop_data(&mut self, unit: u32, d: u32)
        requires { d < ((seen self.old).fixed.counts unit).datas }
        ensures changes { (seen self.new).units ≡ (seen self.old).fixed.drop_data (seen self.old).units unit d }
        ensures memory { (seen self.new).memory ≡ (seen self.old).memory }
        ensures fixed { (seen self.new).fixed ≡ (seen self.old).fixed };
}
