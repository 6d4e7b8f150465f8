// Globals, references, tables, the memory and segments (sections 4.4.2 and 4.4.5 to 4.4.7).
ghost use Rattle.std.specs.Prelude.{◌≡◌, ◌<◌, ◌≤◌, ◌*◌, ◌^◌, ◌%◌, Some, false, true, MatchResult};
ghost use Rattle.wasm_form.specs.Access.{memory_access as access_of};
ghost use Rattle.spec_execution.specs.Activations.{GlobalGet, GlobalSet, TableGet, TableSet, TableSize, TableGrow, TableFill, TableCopy, TableInit, ElemDrop, Load, Store, MemorySize, MemoryGrow, MemoryCopy, MemoryFill, MemoryInit, DataDrop, Does, Refers, with_values, with_top, with_number, with_i32, with_reference, with_three, access_move};
ghost use Rattle.spec_execution.specs.spec_runtime.Numerics.{W32};
ghost use Rattle.spec_execution.specs.Values.{low};
ghost use Rattle.spec_execution.specs.Views.{access_length, load_extended};
ghost use Rattle.wasm_space.specs.Access.{IsAccessLength};
ghost use Rattle.spec_execution.specs.Ranges.{HoldsAll};
ghost use Rattle.wasm_step.specs.Tops.{with_act};
ghost use Rattle.wasm_step.specs.Moves.{MakesMove, IsWithin, acted};
ghost use Rattle.wasm_step.specs.Named.{NamesAreThere};

use crate::control::{give, pop_i32};
use crate::current::Current;
use crate::done::Done;
use std::alloc::Global;
use wasm_cell::Cell;
use wasm_form::{MemoryAccess, Trap, memory_access};
use wasm_num::convert;
use wasm_view::View;

/// What becomes of a change that may trap.
fn changed(answer: Result<(), Trap>) -> Done
    ensures { MatchResult answer (λ _. result ≡ Done.Goes) (λ why. result ≡ Done.Trapped why) }
{
    match answer {
        Ok(()) => Done::Goes,
        Err(trap) => Done::Trapped(trap),
    }
}

// ---- references and globals

/// A reference to a function of the unit.
#[inline(always)]
pub(crate) fn refer<'m, V: View<'m>>(top: &mut Current<'m>, view: &V, f: u32) -> Done
    requires named { f < ((V.seen view.now).fixed.counts top.old.act.unit).functions }
    requires names { NamesAreThere (V.seen view.now).fixed }
    requires within { IsWithin top.old (acted (V.seen view.now).fixed (V.seen view.now).units (V.seen view.now).memory (Refers f top.old.act)) }
    ensures acted { MakesMove result (Refers f top.old.act) ⊥ top.old top.new (V.seen view.now) (V.seen view.now) }
    ensures rest { top.new ≡ with_act top.old top.new.act }
{
    give(top, Cell::reference(Some(view.target(top.unit(), f))))
}

/// The value of a global.
#[inline]
pub(crate) fn global_get<'m, V: View<'m>>(top: &mut Current<'m>, view: &V, g: u32) -> Done
    requires named { g < ((V.seen view.now).fixed.counts top.old.act.unit).globals }
    requires holds { HoldsAll (V.seen view.now).fixed (V.seen view.now).units }
    requires within { IsWithin top.old (acted (V.seen view.now).fixed (V.seen view.now).units (V.seen view.now).memory (Does (GlobalGet g) top.old.act)) }
    ensures acted { MakesMove result (Does (GlobalGet g) top.old.act) ⊥ top.old top.new (V.seen view.now) (V.seen view.now) }
    ensures rest { top.new ≡ with_act top.old top.new.act }
{
    give(top, Cell::of(view.global(top.unit(), g)))
}

/// Sets a global.
#[inline]
pub(crate) fn global_set<'m, V: View<'m>>(top: &mut Current<'m>, view: &mut V, g: u32) -> Done
    requires named { g < ((V.seen view.old).fixed.counts top.old.act.unit).globals }
    requires holds { HoldsAll (V.seen view.old).fixed (V.seen view.old).units }
    requires within { IsWithin top.old (acted (V.seen view.old).fixed (V.seen view.old).units (V.seen view.old).memory (with_top top.old.act.values (λ v vs. Does (GlobalSet g v) (with_values top.old.act vs)))) }
    ensures acted { MakesMove result (with_top top.old.act.values (λ v vs. Does (GlobalSet g v) (with_values top.old.act vs))) ⊥ top.old top.new (V.seen view.old) (V.seen view.new) }
    ensures rest { top.new ≡ with_act top.old top.new.act }
    ensures fixed { (V.seen view.new).fixed ≡ (V.seen view.old).fixed }
{
    let v = top.pop().value();
    view.set_global(top.unit(), g, v);
    Done::Goes
}

// ---- tables

/// An entry of a table.
#[inline(always)]
pub(crate) fn table_get<'m, V: View<'m>>(top: &mut Current<'m>, view: &V, t: u32) -> Done
    requires named { t < ((V.seen view.now).fixed.counts top.old.act.unit).tables }
    requires holds { HoldsAll (V.seen view.now).fixed (V.seen view.now).units }
    requires within { IsWithin top.old (acted (V.seen view.now).fixed (V.seen view.now).units (V.seen view.now).memory (with_i32 top.old.act.values (λ i vs. Does (TableGet t i) (with_values top.old.act vs)))) }
    ensures acted { MakesMove result (with_i32 top.old.act.values (λ i vs. Does (TableGet t i) (with_values top.old.act vs))) ⊥ top.old top.new (V.seen view.now) (V.seen view.now) }
    ensures rest { top.new ≡ with_act top.old top.new.act }
{
    let n = top.number();
    match view.table(top.unit(), t).get(low_index(n)) {
        Ok(r) => {
            top.set_top(Cell::reference(r));
            Done::Goes
        }
        Err(trap) => Done::Trapped(trap),
    }
}

/// Sets an entry of a table.
#[inline(always)]
pub(crate) fn table_set<'m, V: View<'m>>(top: &mut Current<'m>, view: &mut V, t: u32) -> Done
    requires named { t < ((V.seen view.old).fixed.counts top.old.act.unit).tables }
    requires holds { HoldsAll (V.seen view.old).fixed (V.seen view.old).units }
    requires within { IsWithin top.old (acted (V.seen view.old).fixed (V.seen view.old).units (V.seen view.old).memory (with_reference top.old.act.values (λ r vs. with_i32 vs (λ i ws. Does (TableSet t i r) (with_values top.old.act ws))))) }
    ensures acted { MakesMove result (with_reference top.old.act.values (λ r vs. with_i32 vs (λ i ws. Does (TableSet t i r) (with_values top.old.act ws)))) ⊥ top.old top.new (V.seen view.old) (V.seen view.new) }
    ensures rest { top.new ≡ with_act top.old top.new.act }
    ensures fixed { (V.seen view.new).fixed ≡ (V.seen view.old).fixed }
{
    let r = top.pop_reference();
    let i = pop_i32(top);
    changed(view.table_set(top.unit(), t, i, r))
}

/// The size of a table.
pub(crate) fn table_size<'m, V: View<'m>>(top: &mut Current<'m>, view: &V, t: u32) -> Done
    requires named { t < ((V.seen view.now).fixed.counts top.old.act.unit).tables }
    requires holds { HoldsAll (V.seen view.now).fixed (V.seen view.now).units }
    requires within { IsWithin top.old (acted (V.seen view.now).fixed (V.seen view.now).units (V.seen view.now).memory (Does (TableSize t) top.old.act)) }
    ensures acted { MakesMove result (Does (TableSize t) top.old.act) ⊥ top.old top.new (V.seen view.now) (V.seen view.now) }
    ensures rest { top.new ≡ with_act top.old top.new.act }
{
    let size = view.table(top.unit(), t).size();
    give(top, Cell::number(u64::from(size)))
}

/// Adds entries to a table.
pub(crate) fn table_grow<'m, V: View<'m>>(
    top: &mut Current<'m>,
    alloc: Global,
    view: &mut V,
    t: u32,
) -> Done
    requires named { t < ((V.seen view.old).fixed.counts top.old.act.unit).tables }
    requires holds { HoldsAll (V.seen view.old).fixed (V.seen view.old).units }
    requires within { IsWithin top.old (acted (V.seen view.old).fixed (V.seen view.old).units (V.seen view.old).memory (with_i32 top.old.act.values (λ n vs. with_reference vs (λ r ws. Does (TableGrow t r n) (with_values top.old.act ws))))) }
    ensures acted { MakesMove result (with_i32 top.old.act.values (λ n vs. with_reference vs (λ r ws. Does (TableGrow t r n) (with_values top.old.act ws)))) (Unit {0}) top.old top.new (V.seen view.old) (V.seen view.new) }
    ensures rest { top.new ≡ with_act top.old top.new.act }
    ensures fixed { (V.seen view.new).fixed ≡ (V.seen view.old).fixed }
{
    let n = pop_i32(top);
    let r = top.value().func();
    match view.table_grow(alloc, top.unit(), t, n, r) {
        Ok(size) => {
            top.set_top(Cell::number(u64::from(size)));
            Done::Goes
        }
        Err(_) => Done::NoMemory,
    }
}

/// Sets entries of a table to one value.
pub(crate) fn table_fill<'m, V: View<'m>>(top: &mut Current<'m>, view: &mut V, t: u32) -> Done
    requires named { t < ((V.seen view.old).fixed.counts top.old.act.unit).tables }
    requires holds { HoldsAll (V.seen view.old).fixed (V.seen view.old).units }
    requires within { IsWithin top.old (acted (V.seen view.old).fixed (V.seen view.old).units (V.seen view.old).memory (with_i32 top.old.act.values (λ n vs. with_reference vs (λ r ws. with_i32 ws (λ i us. Does (TableFill t i r n) (with_values top.old.act us)))))) }
    ensures acted { MakesMove result (with_i32 top.old.act.values (λ n vs. with_reference vs (λ r ws. with_i32 ws (λ i us. Does (TableFill t i r n) (with_values top.old.act us))))) ⊥ top.old top.new (V.seen view.old) (V.seen view.new) }
    ensures rest { top.new ≡ with_act top.old top.new.act }
    ensures fixed { (V.seen view.new).fixed ≡ (V.seen view.old).fixed }
{
    let n = pop_i32(top);
    let r = top.pop_reference();
    let i = pop_i32(top);
    changed(view.table_fill(top.unit(), t, i, r, n))
}

/// Copies entries of a table to a table.
pub(crate) fn table_copy<'m, V: View<'m>>(
    top: &mut Current<'m>,
    view: &mut V,
    t: u32,
    u: u32,
) -> Done
    requires named { t < ((V.seen view.old).fixed.counts top.old.act.unit).tables }
    requires other { u < ((V.seen view.old).fixed.counts top.old.act.unit).tables }
    requires holds { HoldsAll (V.seen view.old).fixed (V.seen view.old).units }
    requires within { IsWithin top.old (acted (V.seen view.old).fixed (V.seen view.old).units (V.seen view.old).memory (with_three top.old.act (TableCopy t u))) }
    ensures acted { MakesMove result (with_three top.old.act (TableCopy t u)) ⊥ top.old top.new (V.seen view.old) (V.seen view.new) }
    ensures rest { top.new ≡ with_act top.old top.new.act }
    ensures fixed { (V.seen view.new).fixed ≡ (V.seen view.old).fixed }
{
    let n = pop_i32(top);
    let from = pop_i32(top);
    let to = pop_i32(top);
    changed(view.table_copy(top.unit(), t, u, to, from, n))
}

/// Copies entries of an element segment to a table.
pub(crate) fn table_init<'m, V: View<'m>>(
    top: &mut Current<'m>,
    view: &mut V,
    e: u32,
    t: u32,
) -> Done
    requires named { e < ((V.seen view.old).fixed.counts top.old.act.unit).elems }
    requires other { t < ((V.seen view.old).fixed.counts top.old.act.unit).tables }
    requires holds { HoldsAll (V.seen view.old).fixed (V.seen view.old).units }
    requires within { IsWithin top.old (acted (V.seen view.old).fixed (V.seen view.old).units (V.seen view.old).memory (with_three top.old.act (TableInit e t))) }
    ensures acted { MakesMove result (with_three top.old.act (TableInit e t)) ⊥ top.old top.new (V.seen view.old) (V.seen view.new) }
    ensures rest { top.new ≡ with_act top.old top.new.act }
    ensures fixed { (V.seen view.new).fixed ≡ (V.seen view.old).fixed }
{
    let n = pop_i32(top);
    let from = pop_i32(top);
    let to = pop_i32(top);
    changed(view.table_init(top.unit(), t, e, to, from, n))
}

/// Drops an element segment.
pub(crate) fn elem_drop<'m, V: View<'m>>(top: &mut Current<'m>, view: &mut V, e: u32) -> Done
    requires named { e < ((V.seen view.old).fixed.counts top.old.act.unit).elems }
    requires holds { HoldsAll (V.seen view.old).fixed (V.seen view.old).units }
    ensures acted { MakesMove result (Does (ElemDrop e) top.old.act) ⊥ top.old top.new (V.seen view.old) (V.seen view.new) }
    ensures rest { top.new ≡ with_act top.old top.new.act }
    ensures fixed { (V.seen view.new).fixed ≡ (V.seen view.old).fixed }
{
    view.drop_elem(top.unit(), e);
    Done::Goes
}

// ---- the memory

/// The low 32 bits of a number, as an address or an index.
#[inline(always)]
fn low_index(n: u64) -> u32
    ensures { result ≡ low W32 n }
{
    (n % (1 << 32)) as u32
}

/// How many bytes are accessed.
#[inline(always)]
fn length_of(access: MemoryAccess) -> u8
    requires { access.exponent ≤ 3 }
    ensures length { result ≡ access_length access }
    ensures legal { IsAccessLength result }
{
    match access.exponent {
        0 => 1,
        1 => 2,
        2 => 4,
        _ => 8,
    }
}

/// The number that a load gives, of the one in the bytes that it accesses.
#[inline(always)]
fn extended(op: u8, n: u64, access: MemoryAccess) -> u64
    requires access { access_of op ≡ Some access }
    requires fits { n < 2 ^ (8 * access_length access) }
    ensures { result ≡ load_extended op access n }
{
    match op {
        0x2C => convert(0xC0, n),
        0x2E => convert(0xC1, n),
        0x30 => convert(0xC2, n),
        0x32 => convert(0xC3, n),
        0x34 => convert(0xC4, n),
        _ => n,
    }
}

/// A number from the memory.
#[inline(always)]
pub(crate) fn load<'m, V: View<'m>>(
    top: &mut Current<'m>,
    view: &V,
    op: u8,
    access: MemoryAccess,
    offset: u32,
) -> Done
    requires access { access_of op ≡ Some access }
    requires reads { access.writes ≡ false }
    requires within { IsWithin top.old (acted (V.seen view.now).fixed (V.seen view.now).units (V.seen view.now).memory (with_i32 top.old.act.values (λ at vs. Does (Load op access offset at) (with_values top.old.act vs)))) }
    ensures acted { MakesMove result (with_i32 top.old.act.values (λ at vs. Does (Load op access offset at) (with_values top.old.act vs))) ⊥ top.old top.new (V.seen view.now) (V.seen view.now) }
    ensures rest { top.new ≡ with_act top.old top.new.act }
{
    let at = top.number();
    match view.memory().load(low_index(at), offset, length_of(access)) {
        Ok(n) => {
            top.set_number(extended(op, n, access));
            Done::Goes
        }
        Err(trap) => Done::Trapped(trap),
    }
}

/// A number to the memory.
#[inline(always)]
pub(crate) fn store<'m, V: View<'m>>(
    top: &mut Current<'m>,
    view: &mut V,
    op: u8,
    access: MemoryAccess,
    offset: u32,
) -> Done
    requires access { access_of op ≡ Some access }
    requires writes { access.writes ≡ true }
    requires within { IsWithin top.old (acted (V.seen view.old).fixed (V.seen view.old).units (V.seen view.old).memory (with_number top.old.act.values (λ v vs. with_i32 vs (λ at ws. Does (Store access offset at v) (with_values top.old.act ws))))) }
    ensures acted { MakesMove result (with_number top.old.act.values (λ v vs. with_i32 vs (λ at ws. Does (Store access offset at v) (with_values top.old.act ws)))) ⊥ top.old top.new (V.seen view.old) (V.seen view.new) }
    ensures rest { top.new ≡ with_act top.old top.new.act }
    ensures fixed { (V.seen view.new).fixed ≡ (V.seen view.old).fixed }
{
    let v = top.pop_number();
    let at = pop_i32(top);
    changed(view.memory_store(at, offset, length_of(access), v))
}

/// A load or a store.
#[inline(always)]
fn accessed<'m, V: View<'m>>(top: &mut Current<'m>, view: &mut V, op: u8, offset: u32) -> Done
    requires within { IsWithin top.old (acted (V.seen view.old).fixed (V.seen view.old).units (V.seen view.old).memory (access_move op offset (access_of op) top.old.act)) }
    ensures acted { MakesMove result (access_move op offset (access_of op) top.old.act) ⊥ top.old top.new (V.seen view.old) (V.seen view.new) }
    ensures rest { top.new ≡ with_act top.old top.new.act }
    ensures fixed { (V.seen view.new).fixed ≡ (V.seen view.old).fixed }
{
    match memory_access(op) {
        None => unreachable!(),
        Some(access) => {
            if access.writes {
                store(top, view, op, access, offset)
            } else {
                load(top, view, op, access, offset)
            }
        }
    }
}

/// A load or a store by its opcode. A run over each view calls it once.
pub(crate) fn access<'m, V: View<'m>>(
    top: &mut Current<'m>,
    view: &mut V,
    op: u8,
    offset: u32,
) -> Done
    requires within { IsWithin top.old (acted (V.seen view.old).fixed (V.seen view.old).units (V.seen view.old).memory (access_move op offset (access_of op) top.old.act)) }
    ensures acted { MakesMove result (access_move op offset (access_of op) top.old.act) ⊥ top.old top.new (V.seen view.old) (V.seen view.new) }
    ensures rest { top.new ≡ with_act top.old top.new.act }
    ensures fixed { (V.seen view.new).fixed ≡ (V.seen view.old).fixed }
{
    match op {
        0x28 => accessed(top, view, 0x28, offset),
        0x29 => accessed(top, view, 0x29, offset),
        0x2C => accessed(top, view, 0x2C, offset),
        0x2D => accessed(top, view, 0x2D, offset),
        0x2E => accessed(top, view, 0x2E, offset),
        0x2F => accessed(top, view, 0x2F, offset),
        0x30 => accessed(top, view, 0x30, offset),
        0x31 => accessed(top, view, 0x31, offset),
        0x32 => accessed(top, view, 0x32, offset),
        0x33 => accessed(top, view, 0x33, offset),
        0x34 => accessed(top, view, 0x34, offset),
        0x35 => accessed(top, view, 0x35, offset),
        0x36 => accessed(top, view, 0x36, offset),
        0x37 => accessed(top, view, 0x37, offset),
        0x3A => accessed(top, view, 0x3A, offset),
        0x3B => accessed(top, view, 0x3B, offset),
        0x3C => accessed(top, view, 0x3C, offset),
        0x3D => accessed(top, view, 0x3D, offset),
        // i64.store32: there is no other
        _ => accessed(top, view, 0x3E, offset),
    }
}

/// The size of the memory.
#[inline]
pub(crate) fn memory_size<'m, V: View<'m>>(top: &mut Current<'m>, view: &V) -> Done
    requires within { IsWithin top.old (acted (V.seen view.now).fixed (V.seen view.now).units (V.seen view.now).memory (Does MemorySize top.old.act)) }
    ensures acted { MakesMove result (Does MemorySize top.old.act) ⊥ top.old top.new (V.seen view.now) (V.seen view.now) }
    ensures rest { top.new ≡ with_act top.old top.new.act }
{
    let size = view.memory().size();
    give(top, Cell::number(u64::from(size)))
}

/// Adds pages to the memory.
#[cold]
#[inline(never)]
pub(crate) fn memory_grow<'m, V: View<'m>>(
    top: &mut Current<'m>,
    alloc: Global,
    view: &mut V,
) -> Done
    requires within { IsWithin top.old (acted (V.seen view.old).fixed (V.seen view.old).units (V.seen view.old).memory (with_i32 top.old.act.values (λ n vs. Does (MemoryGrow n) (with_values top.old.act vs)))) }
    ensures acted { MakesMove result (with_i32 top.old.act.values (λ n vs. Does (MemoryGrow n) (with_values top.old.act vs))) (Unit {0}) top.old top.new (V.seen view.old) (V.seen view.new) }
    ensures rest { top.new ≡ with_act top.old top.new.act }
    ensures fixed { (V.seen view.new).fixed ≡ (V.seen view.old).fixed }
{
    let n = top.number();
    match view.memory_grow(alloc, low_index(n)) {
        Ok(size) => {
            top.set_number(u64::from(size));
            Done::Goes
        }
        Err(_) => Done::NoMemory,
    }
}

/// Copies bytes of the memory.
#[inline(always)]
pub(crate) fn memory_copy<'m, V: View<'m>>(top: &mut Current<'m>, view: &mut V) -> Done
    requires within { IsWithin top.old (acted (V.seen view.old).fixed (V.seen view.old).units (V.seen view.old).memory (with_three top.old.act MemoryCopy)) }
    ensures acted { MakesMove result (with_three top.old.act MemoryCopy) ⊥ top.old top.new (V.seen view.old) (V.seen view.new) }
    ensures rest { top.new ≡ with_act top.old top.new.act }
    ensures fixed { (V.seen view.new).fixed ≡ (V.seen view.old).fixed }
{
    let n = pop_i32(top);
    let from = pop_i32(top);
    let to = pop_i32(top);
    changed(view.memory_copy(to, from, n))
}

/// Sets bytes of the memory to one value.
#[inline(always)]
pub(crate) fn memory_fill<'m, V: View<'m>>(top: &mut Current<'m>, view: &mut V) -> Done
    requires within { IsWithin top.old (acted (V.seen view.old).fixed (V.seen view.old).units (V.seen view.old).memory (with_three top.old.act (λ to byte n. MemoryFill to (byte % 256) n))) }
    ensures acted { MakesMove result (with_three top.old.act (λ to byte n. MemoryFill to (byte % 256) n)) ⊥ top.old top.new (V.seen view.old) (V.seen view.new) }
    ensures rest { top.new ≡ with_act top.old top.new.act }
    ensures fixed { (V.seen view.new).fixed ≡ (V.seen view.old).fixed }
{
    let n = pop_i32(top);
    let byte = pop_i32(top);
    let to = pop_i32(top);
    changed(view.memory_fill(to, (byte % 256) as u8, n))
}

/// Copies bytes of a data segment to the memory.
pub(crate) fn memory_init<'m, V: View<'m>>(top: &mut Current<'m>, view: &mut V, d: u32) -> Done
    requires named { d < ((V.seen view.old).fixed.counts top.old.act.unit).datas }
    requires holds { HoldsAll (V.seen view.old).fixed (V.seen view.old).units }
    requires within { IsWithin top.old (acted (V.seen view.old).fixed (V.seen view.old).units (V.seen view.old).memory (with_three top.old.act (MemoryInit d))) }
    ensures acted { MakesMove result (with_three top.old.act (MemoryInit d)) ⊥ top.old top.new (V.seen view.old) (V.seen view.new) }
    ensures rest { top.new ≡ with_act top.old top.new.act }
    ensures fixed { (V.seen view.new).fixed ≡ (V.seen view.old).fixed }
{
    let n = pop_i32(top);
    let from = pop_i32(top);
    let to = pop_i32(top);
    changed(view.memory_init(top.unit(), d, to, from, n))
}

/// Drops a data segment.
pub(crate) fn data_drop<'m, V: View<'m>>(top: &mut Current<'m>, view: &mut V, d: u32) -> Done
    requires named { d < ((V.seen view.old).fixed.counts top.old.act.unit).datas }
    requires holds { HoldsAll (V.seen view.old).fixed (V.seen view.old).units }
    ensures acted { MakesMove result (Does (DataDrop d) top.old.act) ⊥ top.old top.new (V.seen view.old) (V.seen view.new) }
    ensures rest { top.new ≡ with_act top.old top.new.act }
    ensures fixed { (V.seen view.new).fixed ≡ (V.seen view.old).fixed }
{
    view.drop_data(top.unit(), d);
    Done::Goes
}
