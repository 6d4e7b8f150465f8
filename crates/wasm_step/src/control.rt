// Instructions without an index that stay in their activation, branches, blocks and locals (sections 4.4.1, 4.4.2, 4.4.4, 4.4.5
// and 4.4.8).
ghost use Rattle.std.specs.Prelude.{◌≡◌, ◌∷◌, ℕ, slice_get, is_some, true, unwrap_or, Some, None};
ghost use Rattle.wasm_form.specs.Plain.{plain_form as plain_form_of};
ghost use Rattle.wasm_form.specs.declared.runtime.Value.TheVariants.{Num};
ghost use Rattle.spec_execution.specs.Activations.{with_values, pushed, with_top, with_i32, with_reference, on_some, to_end, branch_move, branch_if_move, select_move, is_null, one_if, plain_move, local_got, local_set, entered_block, On};
ghost use Rattle.spec_execution.specs.Values.{low};
ghost use Rattle.spec_execution.specs.spec_runtime.Numerics.{W32};
ghost use Rattle.wasm_step.specs.Tops.{with_act};
ghost use Rattle.wasm_step.specs.Primitives.{either_of, number_on};
ghost use Rattle.wasm_step.specs.Moves.{Took, IsSafe};

use crate::current::Current;
use crate::done::Done;
use crate::operators::narrow;
use wasm_cell::Cell;
use wasm_form::{Instr, Trap};
use wasm_view::View;

/// Takes the low 32 bits of the topmost value, which is a number.
#[inline(always)]
pub(crate) fn pop_i32(top: &mut Current) -> u32
    requires { is_some (number_on top.old.act.values) ≡ true }
    ensures low { (m : ℕ) × (result ≡ low W32 m) × (top.old.act.values ≡ Num m ∷ top.new.act.values) }
    ensures rest { top.new ≡ with_act top.old (with_values top.old.act top.new.act.values) }
{
    let n = top.pop_number();
    (n % (1 << 32)) as u32
}

/// Puts a value on top.
#[inline(always)]
pub(crate) fn give(top: &mut Current, c: Cell) -> Done
    requires { IsSafe top.old (On (pushed top.old.act c)) }
    ensures took { Took result (On (pushed top.old.act c)) top.old top.new }
    ensures rest { top.new ≡ with_act top.old top.new.act }
{
    top.push(c);
    Done::Goes
}

#[inline]
fn drop_one(top: &mut Current) -> Done
    requires { IsSafe top.old (with_top top.old.act.values (λ v vs. On (with_values top.old.act vs))) }
    ensures took { Took result (with_top top.old.act.values (λ v vs. On (with_values top.old.act vs))) top.old top.new }
    ensures rest { top.new ≡ with_act top.old top.new.act }
{
    let _ = top.pop();
    Done::Goes
}

/// The first of two values where the number on top isn't 0, else the second.
#[inline]
pub(crate) fn select(top: &mut Current) -> Done
    requires { IsSafe top.old (select_move top.old.act) }
    ensures took { Took result (select_move top.old.act) top.old top.new }
    ensures rest { top.new ≡ with_act top.old top.new.act }
{
    let n = pop_i32(top);
    let y = top.pop();
    if n == 0 {
        top.set_top(y);
    }
    Done::Goes
}

#[inline]
fn is_null_on(top: &mut Current) -> Done
    requires { IsSafe top.old (with_reference top.old.act.values (λ r vs. On (pushed (with_values top.old.act vs) (Num (one_if (is_null r)))))) }
    ensures took { Took result (with_reference top.old.act.values (λ r vs. On (pushed (with_values top.old.act vs) (Num (one_if (is_null r)))))) top.old top.new }
    ensures rest { top.new ≡ with_act top.old top.new.act }
{
    let r = top.value().func();
    top.set_top(Cell::number(u64::from(r.is_none())));
    Done::Goes
}

/// Makes the body done.
#[inline(always)]
fn give_back(top: &mut Current) -> Done
    requires safe { IsSafe top.old (on_some (to_end top.old.act)) }
    ensures took { Took result (on_some (to_end top.old.act)) top.old top.new }
    ensures rest { top.new ≡ with_act top.old top.new.act }
{
    let n = top.results();
    top.end_body(n);
    Done::Goes
}

/// An instruction without operands. The view is not looked at: a run over each view has this function for itself, which is called once,
/// and so inlined whatever its size.
pub(crate) fn plain<'m, V: View<'m>>(top: &mut Current<'m>, _view: &V, op: u8) -> Done
    requires { IsSafe top.old (plain_move op (plain_form_of op) top.old.act) }
    ensures took { Took result (plain_move op (plain_form_of op) top.old.act) top.old top.new }
    ensures rest { top.new ≡ with_act top.old top.new.act }
{
    match op {
        0x00 => Done::Trapped(Trap::Unreachable),
        0x01 => Done::Goes,
        0x0F => give_back(top),
        0x1A => drop_one(top),
        0x1B => select(top),
        0xD1 => is_null_on(top),
        _ => narrow(top, op),
    }
}

// ---- branches

/// Goes to where a branch to the innermost block, or to the body, leads.
#[inline(always)]
fn land(top: &mut Current) -> Done
    requires safe { IsSafe top.old (branch_move top.old.act 0) }
    ensures took { Took result (branch_move top.old.act 0) top.old top.new }
    ensures rest { top.new ≡ with_act top.old top.new.act }
{
    if !top.is_open() {
        return give_back(top);
    }
    let n = top.arity();
    top.keep(n);
    match top.again() {
        Some(body) => top.set_rest(body),
        None => top.leave(),
    }
    Done::Goes
}

/// Branches with so many blocks between.
#[inline(always)]
pub(crate) fn branch(top: &mut Current, k: u32) -> Done
    requires safe { IsSafe top.old (branch_move top.old.act k) }
    ensures took { Took result (branch_move top.old.act k) top.old top.new }
    ensures rest { top.new ≡ with_act top.old top.new.act }
{
    for _between in 0..k {
        top.leave();
    }
    land(top)
}

/// Branches where the number on top isn't 0.
#[inline(always)]
pub(crate) fn branch_if(top: &mut Current, k: u32) -> Done
    requires { IsSafe top.old (with_i32 top.old.act.values (λ c vs. branch_if_move (with_values top.old.act vs) k c)) }
    ensures took { Took result (with_i32 top.old.act.values (λ c vs. branch_if_move (with_values top.old.act vs) k c)) top.old top.new }
    ensures rest { top.new ≡ with_act top.old top.new.act }
{
    let n = pop_i32(top);
    if n == 0 {
        return Done::Goes;
    }
    branch(top, k)
}

/// Branches by the number on top: to the block of that place in a list, or past its end to the last one.
#[inline(never)]
pub(crate) fn branch_by(top: &mut Current, blocks: &[u32], last: u32) -> Done
    requires safe { IsSafe top.old (with_i32 top.old.act.values (λ n vs. branch_move (with_values top.old.act vs) (unwrap_or (slice_get blocks.now n) last))) }
    ensures took { Took result (with_i32 top.old.act.values (λ n vs. branch_move (with_values top.old.act vs) (unwrap_or (slice_get blocks.now n) last))) top.old top.new }
    ensures rest { top.new ≡ with_act top.old top.new.act }
{
    let n = pop_i32(top);
    let k = match blocks.get(n as usize) {
        Some(k) => *k,
        None => last,
    };
    branch(top, k)
}

// ---- blocks

/// Opens a block of a type with so many parameters and results.
#[inline(always)]
pub(crate) fn block<'m>(
    top: &mut Current<'m>,
    params: usize,
    results: usize,
    body: &'m [Instr],
) -> Done
    requires safe { IsSafe top.old (on_some (entered_block top.old.act params results None body.now)) }
    ensures took { Took result (on_some (entered_block top.old.act params results None body.now)) top.old top.new }
    ensures rest { top.new ≡ with_act top.old top.new.act }
{
    top.enter(params, results, None, body);
    Done::Goes
}

/// Opens a loop of a type with so many parameters.
#[inline(always)]
pub(crate) fn again<'m>(top: &mut Current<'m>, params: usize, body: &'m [Instr]) -> Done
    requires safe { IsSafe top.old (on_some (entered_block top.old.act params params (Some body.now) body.now)) }
    ensures took { Took result (on_some (entered_block top.old.act params params (Some body.now) body.now)) top.old top.new }
    ensures rest { top.new ≡ with_act top.old top.new.act }
{
    top.enter(params, params, Some(body), body);
    Done::Goes
}

/// Opens the first of two blocks where the number on top isn't 0, else the second.
#[inline(always)]
pub(crate) fn either<'m>(
    top: &mut Current<'m>,
    params: usize,
    results: usize,
    body: &'m [Instr],
    other: &'m [Instr],
) -> Done
    requires safe { IsSafe top.old (with_i32 top.old.act.values (λ n vs. on_some (entered_block (with_values top.old.act vs) params results None (either_of n body.now other.now)))) }
    ensures took { Took result (with_i32 top.old.act.values (λ n vs. on_some (entered_block (with_values top.old.act vs) params results None (either_of n body.now other.now)))) top.old top.new }
    ensures rest { top.new ≡ with_act top.old top.new.act }
{
    let n = pop_i32(top);
    block(top, params, results, if n == 0 { other } else { body })
}

// ---- locals

#[inline(always)]
pub(crate) fn local_get(top: &mut Current, k: u32) -> Done
    requires { IsSafe top.old (local_got top.old.act (slice_get top.old.act.locals k)) }
    ensures took { Took result (local_got top.old.act (slice_get top.old.act.locals k)) top.old top.new }
    ensures rest { top.new ≡ with_act top.old top.new.act }
{
    let c = top.local(k);
    give(top, c)
}

#[inline(always)]
pub(crate) fn local_set_to(top: &mut Current, k: u32) -> Done
    requires { IsSafe top.old (with_top top.old.act.values (λ v vs. local_set top.old.act k v vs (slice_get top.old.act.locals k))) }
    ensures took { Took result (with_top top.old.act.values (λ v vs. local_set top.old.act k v vs (slice_get top.old.act.locals k))) top.old top.new }
    ensures rest { top.new ≡ with_act top.old top.new.act }
{
    let c = top.pop();
    top.set_local(k, c);
    Done::Goes
}

#[inline(always)]
pub(crate) fn local_tee(top: &mut Current, k: u32) -> Done
    requires { IsSafe top.old (with_top top.old.act.values (λ v vs. local_set top.old.act k v (v ∷ vs) (slice_get top.old.act.locals k))) }
    ensures took { Took result (with_top top.old.act.values (λ v vs. local_set top.old.act k v (v ∷ vs) (slice_get top.old.act.locals k))) top.old top.new }
    ensures rest { top.new ≡ with_act top.old top.new.act }
{
    let c = top.value();
    top.set_local(k, c);
    Done::Goes
}
