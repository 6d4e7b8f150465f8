// One instruction that doesn't call.
ghost use Rattle.std.specs.Prelude.{◌≡◌, ◌<◌, Some, None, false, not, is_some, IsTrue, IsSome, IfSome, IfNone, length};
ghost use Rattle.wasm_form.specs.declared.instr.Instr.{out-Instr};
ghost use Rattle.wasm_form.specs.Index.{index_form as index_form_of};
ghost use Rattle.wasm_form.specs.Second.{second_form as second_form_of};
ghost use Rattle.spec_execution.specs.Activations.{expanded, else_of, index_move, second_move, instr_move};
ghost use Rattle.spec_execution.specs.Ranges.{HoldsAll, index_in_range, second_in_range, block_in_range};
ghost use Rattle.wasm_step.specs.Tops.{with_act};
ghost use Rattle.wasm_step.specs.Primitives.{past};
ghost use Rattle.wasm_step.specs.Moves.{MakesMove, IsWithin, acted};
ghost use Rattle.wasm_step.specs.Named.{NamesAreThere, named_here, is_call, is_call_form, is_growth, is_table_growth, is_copy_or_fill};

use crate::control::{
    again, block, branch, branch_by, branch_if, either, give, local_get, local_set_to, local_tee,
    plain, select,
};
use crate::current::Current;
use crate::done::Done;
use crate::store::{
    access, data_drop, elem_drop, global_get, global_set, memory_copy, memory_fill, memory_grow,
    memory_init, memory_size, refer, table_copy, table_fill, table_get, table_grow, table_init,
    table_set, table_size,
};
use std::alloc::Global;
use std::mem;
use wasm_cell::Cell;
use wasm_form::{BlockType, Expr, Instr, SecondForm, second_form};
use wasm_view::View;

/// How many parameters and results a block has.
#[inline(always)]
fn sizes<'m, V: View<'m>>(view: &V, unit: u32, ty: BlockType) -> (usize, usize)
    requires named { IsTrue (block_in_range ((V.seen view.now).fixed.counts unit) ty) }
    requires names { NamesAreThere (V.seen view.now).fixed }
    ensures there { IsSome (expanded ((V.seen view.now).fixed.declared unit) ty) }
    ensures sizes { IfSome (expanded ((V.seen view.now).fixed.declared unit) ty) (λ f. (result.0 ≡ length f.params) × (result.1 ≡ length f.results)) }
{
    match ty {
        BlockType::Empty => (0, 0),
        BlockType::Value(_) => (0, 1),
        BlockType::Index(t) => {
            let ty = view.declared(unit, t);
            (ty.params.items().len(), ty.results.items().len())
        }
    }
}

/// The instructions of `else`; without it there are none.
#[inline(always)]
fn else_items<'m>(other: &'m Option<Expr>) -> &'m [Instr]
    ensures { result.now ≡ else_of other.now }
{
    match other {
        Some(e) => e.list.items(),
        None => &[],
    }
}

/// An instruction with one index, unless it is a call. A run over each view calls it once.
fn indexed<'m, V: View<'m>>(top: &mut Current<'m>, view: &mut V, op: u8, n: u32) -> Option<Done>
    requires some { 0 < length top.old.act.rest }
    requires named { IsTrue (index_in_range ((V.seen view.old).fixed.counts top.old.act.unit) n (index_form_of op)) }
    requires names { NamesAreThere (V.seen view.old).fixed }
    requires holds { HoldsAll (V.seen view.old).fixed (V.seen view.old).units }
    requires within { is_call_form (index_form_of op) ≡ false → IsWithin top.old (acted (V.seen view.old).fixed (V.seen view.old).units (V.seen view.old).memory (index_move n (index_form_of op) (past top.old.act))) }
    ensures call { is_some result ≡ not (is_call_form (index_form_of op)) }
    ensures acted { IfSome result (λ done. MakesMove done (index_move n (index_form_of op) (past top.old.act)) ⊥ top.old top.new (V.seen view.old) (V.seen view.new)) }
    ensures none { IfNone result ((top.new ≡ top.old) × (V.seen view.new ≡ V.seen view.old)) }
    ensures rest { top.new ≡ with_act top.old top.new.act }
    ensures fixed { (V.seen view.new).fixed ≡ (V.seen view.old).fixed }
{
    match op {
        0x0C => {
            top.advance();
            Some(branch(top, n))
        }
        0x0D => {
            top.advance();
            Some(branch_if(top, n))
        }
        0x10 => None,
        0x20 => {
            top.advance();
            Some(local_get(top, n))
        }
        0x21 => {
            top.advance();
            Some(local_set_to(top, n))
        }
        0x22 => {
            top.advance();
            Some(local_tee(top, n))
        }
        0x23 => {
            top.advance();
            Some(global_get(top, view, n))
        }
        0x24 => {
            top.advance();
            Some(global_set(top, view, n))
        }
        0x25 => {
            top.advance();
            Some(table_get(top, view, n))
        }
        0x26 => {
            top.advance();
            Some(table_set(top, view, n))
        }
        // ref.func: there is no other
        _ => {
            top.advance();
            Some(refer(top, view, n))
        }
    }
}

/// An instruction with a second opcode that neither copies nor fills bytes of the memory.
#[cold]
#[inline(never)]
fn rare<'m, V: View<'m>>(
    top: &mut Current<'m>,
    alloc: Global,
    view: &mut V,
    op: u32,
    a: u32,
    b: u32,
) -> Done
    requires rare { is_copy_or_fill (second_form_of op) ≡ false }
    requires named { IsTrue (second_in_range ((V.seen view.old).fixed.counts top.old.act.unit) a b (second_form_of op)) }
    requires names { NamesAreThere (V.seen view.old).fixed }
    requires holds { HoldsAll (V.seen view.old).fixed (V.seen view.old).units }
    requires within { IsWithin top.old (acted (V.seen view.old).fixed (V.seen view.old).units (V.seen view.old).memory (second_move (second_form_of op) a b top.old.act)) }
    ensures acted { MakesMove result (second_move (second_form_of op) a b top.old.act) (IsTrue (is_table_growth (second_form_of op))) top.old top.new (V.seen view.old) (V.seen view.new) }
    ensures rest { top.new ≡ with_act top.old top.new.act }
    ensures fixed { (V.seen view.new).fixed ≡ (V.seen view.old).fixed }
{
    match second_form(op) {
        None | Some(SecondForm::MemoryCopy | SecondForm::MemoryFill) => unreachable!(),
        Some(SecondForm::MemoryInit) => memory_init(top, view, a),
        Some(SecondForm::DataDrop) => data_drop(top, view, a),
        Some(SecondForm::TableInit) => table_init(top, view, a, b),
        Some(SecondForm::ElemDrop) => elem_drop(top, view, a),
        Some(SecondForm::TableCopy) => table_copy(top, view, a, b),
        Some(SecondForm::TableGrow) => table_grow(top, alloc, view, a),
        Some(SecondForm::TableSize) => table_size(top, view, a),
        Some(SecondForm::TableFill) => table_fill(top, view, a),
    }
}

/// An instruction with a second opcode. What isn't inlined runs on `spare`.
#[inline(always)]
fn prefixed<'m, V: View<'m>>(
    top: &mut Current<'m>,
    spare: &mut Current<'m>,
    alloc: Global,
    view: &mut V,
    op: u32,
    a: u32,
    b: u32,
) -> Done
    requires named { IsTrue (second_in_range ((V.seen view.old).fixed.counts top.old.act.unit) a b (second_form_of op)) }
    requires names { NamesAreThere (V.seen view.old).fixed }
    requires holds { HoldsAll (V.seen view.old).fixed (V.seen view.old).units }
    requires within { IsWithin top.old (acted (V.seen view.old).fixed (V.seen view.old).units (V.seen view.old).memory (second_move (second_form_of op) a b top.old.act)) }
    ensures acted { MakesMove result (second_move (second_form_of op) a b top.old.act) (IsTrue (is_table_growth (second_form_of op))) top.old top.new (V.seen view.old) (V.seen view.new) }
    ensures rest { top.new ≡ with_act top.old top.new.act }
    ensures fixed { (V.seen view.new).fixed ≡ (V.seen view.old).fixed }
{
    match second_form(op) {
        Some(SecondForm::MemoryCopy) => memory_copy(top, view),
        Some(SecondForm::MemoryFill) => memory_fill(top, view),
        _ => {
            mem::swap(top, spare);
            let done = rare(spare, alloc, view, op, a, b);
            mem::swap(top, spare);
            done
        }
    }
}

/// The next instruction, unless it is a call. What isn't inlined runs on `spare`, so that `top` may lie in registers.
#[inline(always)]
pub fn instruction<'m, V: View<'m>>(
    top: &mut Current<'m>,
    spare: &mut Current<'m>,
    alloc: Global,
    view: &mut V,
    i: &'m Instr,
) -> Option<Done>
    requires some { 0 < length top.old.act.rest }
    requires named { IsTrue (named_here ((V.seen view.old).fixed.counts top.old.act.unit) (out-Instr i.now)) }
    requires names { NamesAreThere (V.seen view.old).fixed }
    requires holds { HoldsAll (V.seen view.old).fixed (V.seen view.old).units }
    requires within { is_call (out-Instr i.now) ≡ false → IsWithin top.old (acted (V.seen view.old).fixed (V.seen view.old).units (V.seen view.old).memory (instr_move ((V.seen view.old).fixed.declared top.old.act.unit) (out-Instr i.now) (past top.old.act))) }
    ensures call { is_some result ≡ not (is_call (out-Instr i.now)) }
    ensures acted { IfSome result (λ done. MakesMove done (instr_move ((V.seen view.old).fixed.declared top.old.act.unit) (out-Instr i.now) (past top.old.act)) (IsTrue (is_growth (out-Instr i.now))) top.old top.new (V.seen view.old) (V.seen view.new)) }
    ensures none { IfNone result ((top.new ≡ top.old) × (V.seen view.new ≡ V.seen view.old)) }
    ensures rest { top.new ≡ with_act top.old top.new.act }
    ensures fixed { (V.seen view.new).fixed ≡ (V.seen view.old).fixed }
{
    match i {
        Instr::Plain(op) => {
            top.advance();
            Some(plain(top, view, *op))
        }
        Instr::Index(op, n) => indexed(top, view, *op, *n),
        Instr::Block(ty, body) => {
            top.advance();
            let (params, results) = sizes(view, top.unit(), *ty);
            Some(block(top, params, results, body.list.items()))
        }
        Instr::Loop(ty, body) => {
            top.advance();
            let (params, _) = sizes(view, top.unit(), *ty);
            Some(again(top, params, body.list.items()))
        }
        Instr::If(ty, body, other) => {
            top.advance();
            let (params, results) = sizes(view, top.unit(), *ty);
            Some(either(top, params, results, body.list.items(), else_items(other)))
        }
        Instr::BrTable(blocks, last) => {
            top.advance();
            mem::swap(top, spare);
            let done = branch_by(spare, blocks.items(), *last);
            mem::swap(top, spare);
            Some(done)
        }
        Instr::CallIndirect { .. } => None,
        Instr::Select(_) => {
            top.advance();
            Some(select(top))
        }
        Instr::Access { op, offset, .. } => {
            top.advance();
            Some(access(top, view, *op, *offset))
        }
        Instr::MemorySize => {
            top.advance();
            Some(memory_size(top, view))
        }
        Instr::MemoryGrow => {
            top.advance();
            mem::swap(top, spare);
            let done = memory_grow(spare, alloc, view);
            mem::swap(top, spare);
            Some(done)
        }
        Instr::I32Const(n) => {
            top.advance();
            Some(give(top, Cell::number(u64::from(n.cast_unsigned()))))
        }
        Instr::I64Const(n) => {
            top.advance();
            Some(give(top, Cell::number(n.cast_unsigned())))
        }
        Instr::F32Const(_) | Instr::F64Const(_) => unreachable!(),
        Instr::RefNull(_) => {
            top.advance();
            Some(give(top, Cell::reference(None)))
        }
        Instr::Prefixed { op, a, b } => {
            top.advance();
            Some(prefixed(top, spare, alloc, view, *op, *a, *b))
        }
    }
}
