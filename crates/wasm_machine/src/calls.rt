// Calls and returns (section 4.4.10), and one step of the code on top.
ghost use Rattle.std.specs.Prelude.{◌≡◌, ◌≢◌, ◌<◌, ◌≤◌, ◌+◌, [], length, true, false, None, Some, OnOk};
ghost use Rattle.spec_safety.specs.spec_execution.Limits.{most_activations, most_values, passes_limit};
ghost use Rattle.spec_safety.specs.spec_execution.Ranges.{HoldsAll, AreInRange, Exists};
ghost use Rattle.spec_safety.specs.spec_execution.Views.{type_of as type_seen};
ghost use Rattle.wasm_form.specs.declared.instr.Instr.{out-Instr};
ghost use Rattle.spec_safety.specs.spec_binary.Indices.{nullary};
ghost use Rattle.spec_safety.specs.spec_binary.SameTypes.{same_function_type};
ghost use Rattle.wasm_step.specs.Named.{NamesAreThere, is_call};
ghost use Rattle.wasm_step.specs.Primitives.{first_of, Dropped, CanOpen, Spread};
ghost use Rattle.wasm_machine.specs.Callees.{above_of, IsEntry, IsNamed, HasIndex, IsCalled};
ghost use Rattle.wasm_machine.specs.Outside.{callee_of, IsOutsideCall};
ghost use Rattle.wasm_machine.specs.Stacks.{joined, under_of, is_live, IsJoined, passes_over};
ghost use Rattle.wasm_machine.specs.Machines.{Leads, Advances, StaysWithin, next_in, carried_in, called_from, called_over, indirect, Finished, RoomsAre, is_outside, calls_outside};

use crate::callers::{Caller, Callers};
use std::alloc::Global;
use std::mem;
use wasm_form::{FuncType, Instr, Memory, Ref, Trap};
use wasm_step::{Current, Done, instruction};
use wasm_view::View;

/// The most activations, and the most values that they may take room for.
const MOST_ACTIVATIONS: usize = 10_000;

const MOST_VALUES: usize = 4_194_304;

/// Whether an activation of this room would pass a limit of depth over so many activations, which took so much room.
#[inline(always)]
fn passes_over(count: usize, taken: usize, room: usize) -> bool
    requires count { count ≤ most_activations }
    requires taken { taken ≤ most_values }
    requires room { room < 4294967296 }
    ensures passes { result ≡ passes_over count taken room }
    ensures few { result ≡ false → count + 1 ≤ most_activations }
    ensures small { result ≡ false → taken + room ≤ most_values }
{
    count + 1 > MOST_ACTIVATIONS || taken + room > MOST_VALUES
}

/// Leaves the innermost block at its end, or the activation whose body is done.
pub(crate) fn end<'m, V: View<'m>>(
    callers: &mut Callers<'m>,
    top: &mut Current<'m>,
    spare: &mut Current<'m>,
    view: &V,
) -> Done
    requires joined { IsJoined callers.old top.old }
    requires live { is_live top.old ≡ true }
    requires done { top.old.act.rest ≡ [] }
    requires rooms { RoomsAre (V.seen view.now).fixed (joined callers.old top.old) }
    requires moves { next_in (V.seen view.now) (joined callers.old top.old).frames ≢ None }
    ensures led { Leads result (next_in (V.seen view.now) (joined callers.old top.old).frames) ⊥ (joined callers.old top.old) (joined callers.new top.new) (V.seen view.now) (V.seen view.now) }
    ensures inside { result ≢ Done.Outside }
    ensures joined { IsJoined callers.new top.new }
    ensures rooms { result ≡ Done.Goes → RoomsAre (V.seen view.now).fixed (joined callers.new top.new) }
{
    if top.is_open() {
        top.leave();
        return Done::Goes;
    }
    finish(callers, top, spare)
}

/// Gives the values on top to what called.
#[inline(always)]
fn finish<'m>(callers: &mut Callers<'m>, top: &mut Current<'m>, spare: &mut Current<'m>) -> Done
    requires joined { IsJoined callers.old top.old }
    requires live { is_live top.old ≡ true }
    requires done { top.old.act.levels ≡ [] }
    ensures finished { Finished result top.old.act.values (joined callers.old top.old) (joined callers.new top.new) }
    ensures joined { IsJoined callers.new top.new }
{
    match callers.last() {
        None => {
            leave_all(top, spare);
            Done::Returned
        }
        Some(Caller::Mark(_)) => {
            leave_all(top, spare);
            Done::Goes
        }
        Some(Caller::Active(place)) => {
            let _ = callers.pop();
            top.resume(place);
            Done::Goes
        }
    }
}

/// Takes what is on top away, and leaves nothing on top.
#[inline(always)]
fn leave_all<'m>(top: &mut Current<'m>, spare: &mut Current<'m>)
    ensures { Dropped top.old top.new }
{
    mem::swap(top, spare);
    spare.leave_all();
    mem::swap(top, spare);
}

/// Takes room for an activation of so many values, unless it is there.
#[inline(always)]
fn make_room<'m>(
    top: &mut Current<'m>,
    spare: &mut Current<'m>,
    alloc: Global,
    room: usize,
) -> Result<(), Memory>
    requires most { room ≤ 4194304 }
    ensures fits { OnOk result (CanOpen top.new room) }
    ensures same { Spread top.old top.new }
{
    if top.fits(room) {
        return Ok(());
    }
    mem::swap(top, spare);
    let widened = spare.widen(alloc, room);
    mem::swap(top, spare);
    widened
}

/// Calls code that a unit defines, with the arguments under the topmost `above` values, which are dropped.
#[inline(always)]
fn call_own<'m, V: View<'m>>(
    callers: &mut Callers<'m>,
    top: &mut Current<'m>,
    spare: &mut Current<'m>,
    alloc: Global,
    view: &V,
    above: usize,
    unit: u32,
    func: u32,
) -> Done
    requires joined { IsJoined callers.old top.old }
    requires live { is_live top.old ≡ true }
    requires rooms { RoomsAre (V.seen view.now).fixed (joined callers.old top.old) }
    requires some { 0 < length top.old.act.rest }
    requires above { above ≤ length top.old.act.values }
    requires exists { Exists (V.seen view.now).fixed (Ref.Own unit func) }
    requires moves { called_from (V.seen view.now) top.old.act above (under_of callers.old top.old) (Ref.Own unit func) ≢ None }
    ensures led { Leads result (called_from (V.seen view.now) top.old.act above (under_of callers.old top.old) (Ref.Own unit func)) (Unit {0}) (joined callers.old top.old) (joined callers.new top.new) (V.seen view.now) (V.seen view.now) }
    ensures inside { result ≢ Done.Outside }
    ensures joined { result ≢ Done.NoMemory → IsJoined callers.new top.new }
    ensures rooms { result ≡ Done.Goes → RoomsAre (V.seen view.now).fixed (joined callers.new top.new) }
{
    let ty = view.type_of(Ref::Own { unit, func });
    let room = view.room(unit, func) as usize;
    if passes_over(callers.count() + 1, callers.room() + top.room(), room) {
        return Done::Deep;
    }
    let params = ty.params.items().len();
    let results = ty.results.items().len();
    let code = view.code(unit, func);
    top.advance();
    top.drop_values(above);
    if make_room(top, spare, alloc, room).is_err() {
        return Done::NoMemory;
    }
    let place = top.open(unit, func, room, params, results, code);
    match callers.push(place) {
        Ok(()) => Done::Goes,
        Err(_) => Done::NoMemory,
    }
}

/// Calls a function, with the arguments under the topmost `above` values.
#[inline(always)]
fn call<'m, V: View<'m>>(
    callers: &mut Callers<'m>,
    top: &mut Current<'m>,
    spare: &mut Current<'m>,
    alloc: Global,
    view: &V,
    above: usize,
    r: Ref,
) -> Done
    requires joined { IsJoined callers.old top.old }
    requires live { is_live top.old ≡ true }
    requires rooms { RoomsAre (V.seen view.now).fixed (joined callers.old top.old) }
    requires some { 0 < length top.old.act.rest }
    requires above { above ≤ length top.old.act.values }
    requires exists { Exists (V.seen view.now).fixed r }
    requires moves { called_from (V.seen view.now) top.old.act above (under_of callers.old top.old) r ≢ None }
    ensures led { Leads result (called_from (V.seen view.now) top.old.act above (under_of callers.old top.old) r) (Unit {0}) (joined callers.old top.old) (joined callers.new top.new) (V.seen view.now) (V.seen view.now) }
    ensures outside { result ≡ Done.Outside → is_outside r ≡ true }
    ensures joined { result ≢ Done.NoMemory → IsJoined callers.new top.new }
    ensures rooms { result ≡ Done.Goes → RoomsAre (V.seen view.now).fixed (joined callers.new top.new) }
{
    match r {
        Ref::Own { unit, func } => call_own(callers, top, spare, alloc, view, above, unit, func),
        Ref::Stub { .. } => Done::Trapped(Trap::Unreachable),
        Ref::Loader(_) | Ref::Host(_) => Done::Outside,
    }
}

/// Whether two types are one.
#[inline(always)]
fn is_same_type(one: &FuncType, other: &FuncType) -> bool
    ensures { result ≡ same_function_type one.now other.now }
{
    one == other
}

/// What an instruction calls: a function of the unit, or an entry of a table as one of a type.
#[derive(Clone, Copy)]
pub(crate) enum Callee {
    Function(u32),
    Entry { ty: u32, table: u32 },
}

/// What this instruction calls, if it does.
#[inline(always)]
fn named_callee(i: &Instr) -> Option<Callee>
    ensures { result ≡ callee_of (out-Instr i.now) }
{
    match i {
        Instr::Index(op, f) => (*op == 0x10).then_some(Callee::Function(*f)),
        Instr::CallIndirect { ty, table } => Some(Callee::Entry {
            ty: *ty,
            table: *table,
        }),
        _ => None,
    }
}

/// How many values stand above the arguments of a call: the index of an entry does.
#[inline(always)]
fn above(callee: Callee) -> usize
    ensures { result ≡ above_of callee }
{
    match callee {
        Callee::Function(_) => 0,
        Callee::Entry { .. } => 1,
    }
}

/// The function of a table at an index, which has to be of a type.
#[inline(always)]
fn entry<'m, V: View<'m>>(view: &V, unit: u32, ty: u32, table: u32, n: u64) -> Result<Ref, Trap>
    requires holds { HoldsAll (V.seen view.now).fixed (V.seen view.now).units }
    requires declared { ty < ((V.seen view.now).fixed.counts unit).types }
    requires table { table < ((V.seen view.now).fixed.counts unit).tables }
    ensures { IsEntry (V.seen view.now).fixed (V.seen view.now).units unit ty table n result }
{
    let wanted = view.declared(unit, ty);
    match view.table(unit, table).get((n % (1 << 32)) as u32) {
        Err(trap) => Err(trap),
        Ok(None) => Err(Trap::NullEntry),
        Ok(Some(r)) => {
            if is_same_type(view.type_of(r), wanted) {
                Ok(r)
            } else {
                Err(Trap::WrongType)
            }
        }
    }
}

/// The function that is called, or why none is.
#[inline(always)]
fn called<'m, V: View<'m>>(top: &Current<'m>, view: &V, callee: Callee) -> Result<Ref, Trap>
    requires names { NamesAreThere (V.seen view.now).fixed }
    requires holds { HoldsAll (V.seen view.now).fixed (V.seen view.now).units }
    requires named { IsNamed ((V.seen view.now).fixed.counts top.now.act.unit) callee }
    requires index { HasIndex top.now.act.values callee }
    ensures { IsCalled (V.seen view.now).fixed (V.seen view.now).units (V.seen view.now).memory callee top.now.act result }
{
    match callee {
        Callee::Function(f) => Ok(view.target(top.unit(), f)),
        Callee::Entry { ty, table } => {
            let n = top.number();
            entry(view, top.unit(), ty, table, n)
        }
    }
}

/// One step of the code on top, of this call.
fn call_next<'m, V: View<'m>>(
    callers: &mut Callers<'m>,
    top: &mut Current<'m>,
    spare: &mut Current<'m>,
    alloc: Global,
    view: &V,
    i: &'m Instr,
) -> Done
    requires joined { IsJoined callers.old top.old }
    requires live { is_live top.old ≡ true }
    requires next { Some i.now ≡ first_of top.old.act.rest }
    requires call { is_call (out-Instr i.now) ≡ true }
    requires rooms { RoomsAre (V.seen view.now).fixed (joined callers.old top.old) }
    requires names { NamesAreThere (V.seen view.now).fixed }
    requires holds { HoldsAll (V.seen view.now).fixed (V.seen view.now).units }
    requires rest { AreInRange ((V.seen view.now).fixed.counts top.old.act.unit) top.old.act.rest }
    requires moves { next_in (V.seen view.now) (joined callers.old top.old).frames ≢ None }
    ensures led { Advances result (joined callers.old top.old) (joined callers.new top.new) (V.seen view.now) (V.seen view.now) }
    ensures outside { result ≡ Done.Outside → calls_outside (V.seen view.now).fixed (V.seen view.now).units top.old.act ≡ true }
    ensures joined { result ≢ Done.NoMemory → IsJoined callers.new top.new }
    ensures rooms { result ≡ Done.Goes → RoomsAre (V.seen view.now).fixed (joined callers.new top.new) }
{
    match named_callee(i) {
        Some(callee) => match called(top, view, callee) {
            Ok(r) => call(callers, top, spare, alloc, view, above(callee), r),
            Err(trap) => Done::Trapped(trap),
        },
        None => unreachable!(),
    }
}

/// One step of the code on top, of this instruction. A function that isn't inlined works on it in `spare`, so that the fields of `top` may be
/// kept in registers.
#[inline(always)]
pub(crate) fn advance<'m, V: View<'m>>(
    callers: &mut Callers<'m>,
    top: &mut Current<'m>,
    spare: &mut Current<'m>,
    alloc: Global,
    view: &mut V,
    i: &'m Instr,
) -> Done
    requires joined { IsJoined callers.old top.old }
    requires live { is_live top.old ≡ true }
    requires next { Some i.now ≡ first_of top.old.act.rest }
    requires rooms { RoomsAre (V.seen view.old).fixed (joined callers.old top.old) }
    requires names { NamesAreThere (V.seen view.old).fixed }
    requires holds { HoldsAll (V.seen view.old).fixed (V.seen view.old).units }
    requires rest { AreInRange ((V.seen view.old).fixed.counts top.old.act.unit) top.old.act.rest }
    requires within { StaysWithin (V.seen view.old).fixed (next_in (V.seen view.old) (joined callers.old top.old).frames) }
    requires moves { next_in (V.seen view.old) (joined callers.old top.old).frames ≢ None }
    ensures led { Advances result (joined callers.old top.old) (joined callers.new top.new) (V.seen view.old) (V.seen view.new) }
    ensures outside { result ≡ Done.Outside → calls_outside (V.seen view.old).fixed (V.seen view.old).units top.old.act ≡ true }
    ensures joined { result ≢ Done.NoMemory → IsJoined callers.new top.new }
    ensures rooms { result ≡ Done.Goes → RoomsAre (V.seen view.old).fixed (joined callers.new top.new) }
    ensures fixed { (V.seen view.new).fixed ≡ (V.seen view.old).fixed }
{
    match instruction(top, spare, alloc, view, i) {
        Some(done) => done,
        None => call_next(callers, top, spare, alloc, view, i),
    }
}

/// Calls code without parameters and results, over a mark or nothing.
pub(crate) fn begin_own<'m, V: View<'m>>(
    callers: &Callers<'m>,
    top: &mut Current<'m>,
    alloc: Global,
    view: &V,
    unit: u32,
    func: u32,
) -> Done
    requires joined { IsJoined callers.now top.old }
    requires idle { is_live top.old ≡ false }
    requires rooms { RoomsAre (V.seen view.now).fixed (joined callers.now top.old) }
    requires nullary { type_seen (V.seen view.now).fixed (Ref.Own unit func) ≡ Some nullary }
    ensures led { Leads result (called_over (V.seen view.now) (under_of callers.now top.old) (Ref.Own unit func)) (Unit {0}) (joined callers.now top.old) (joined callers.now top.new) (V.seen view.now) (V.seen view.now) }
    ensures joined { result ≢ Done.NoMemory → IsJoined callers.now top.new }
    ensures rooms { result ≡ Done.Goes → RoomsAre (V.seen view.now).fixed (joined callers.now top.new) }
{
    let room = view.room(unit, func) as usize;
    if passes_over(callers.count(), callers.room(), room) {
        return Done::Deep;
    }
    match top.start(alloc, unit, func, room, 0, view.code(unit, func)) {
        Ok(()) => Done::Goes,
        Err(_) => Done::NoMemory,
    }
}

/// A call of a function outside, whose arguments lie under the topmost `above` values.
#[derive(Clone, Copy)]
pub(crate) struct OutsideCall {
    pub(crate) target: Ref,
    pub(crate) above: usize,
}

/// The function outside that the next instruction calls.
pub(crate) fn outside_call<'m, V: View<'m>>(top: &Current<'m>, view: &V) -> OutsideCall
    requires outside { calls_outside (V.seen view.now).fixed (V.seen view.now).units top.now.act ≡ true }
    requires names { NamesAreThere (V.seen view.now).fixed }
    requires holds { HoldsAll (V.seen view.now).fixed (V.seen view.now).units }
    requires rest { AreInRange ((V.seen view.now).fixed.counts top.now.act.unit) top.now.act.rest }
    ensures { IsOutsideCall (V.seen view.now).fixed (V.seen view.now).units (V.seen view.now).memory top.now.act result }
{
    let Some(i) = top.peek() else {
        unreachable!();
    };
    match named_callee(i) {
        Some(Callee::Function(f)) => OutsideCall {
            target: view.target(top.unit(), f),
            above: 0,
        },
        Some(Callee::Entry { table, .. }) => match top.find_number() {
            Some(n) => match view.table(top.unit(), table).get((n % (1 << 32)) as u32) {
                Ok(Some(target)) => OutsideCall { target, above: 1 },
                _ => unreachable!(),
            },
            None => unreachable!(),
        },
        None => unreachable!(),
    }
}

// ---- the depth of the next call

/// Whether a call of a function from the code on top, with the arguments under the topmost `above` values, would pass a limit of depth.
fn call_passes<'m, V: View<'m>>(
    callers: &Callers<'m>,
    top: &Current<'m>,
    view: &V,
    above: usize,
    r: Ref,
) -> bool
    requires joined { IsJoined callers.now top.now }
    requires live { is_live top.now ≡ true }
    requires rooms { RoomsAre (V.seen view.now).fixed (joined callers.now top.now) }
    requires above { above ≤ length top.now.act.values }
    requires exists { Exists (V.seen view.now).fixed r }
    ensures { result ≡ passes_limit (V.seen view.now).fixed (called_from (V.seen view.now) top.now.act above (under_of callers.now top.now) r) }
{
    let Ref::Own { unit, func } = r else {
        return false;
    };
    if !top.has_arguments(above, view.type_of(r).params.items()) {
        return false;
    }
    passes_over(
        callers.count() + 1,
        callers.room() + top.room(),
        view.room(unit, func) as usize,
    )
}

/// The same of a call of the function of a table at the index on top, which has to be of a type.
fn entry_passes<'m, V: View<'m>>(
    callers: &Callers<'m>,
    top: &Current<'m>,
    view: &V,
    ty: u32,
    table: u32,
) -> bool
    requires joined { IsJoined callers.now top.now }
    requires live { is_live top.now ≡ true }
    requires rooms { RoomsAre (V.seen view.now).fixed (joined callers.now top.now) }
    requires names { NamesAreThere (V.seen view.now).fixed }
    requires holds { HoldsAll (V.seen view.now).fixed (V.seen view.now).units }
    requires declared { ty < ((V.seen view.now).fixed.counts top.now.act.unit).types }
    requires table { table < ((V.seen view.now).fixed.counts top.now.act.unit).tables }
    ensures { result ≡ passes_limit (V.seen view.now).fixed (carried_in (V.seen view.now) (under_of callers.now top.now) (indirect ty table top.now.act)) }
{
    let Some(n) = top.find_number() else {
        return false;
    };
    let unit = top.unit();
    match view.table(unit, table).get((n % (1 << 32)) as u32) {
        Ok(Some(r)) => is_same_type(view.type_of(r), view.declared(unit, ty))
            && call_passes(callers, top, view, 1, r),
        _ => false,
    }
}

/// Whether the next step of the code on top would pass a limit of depth. Only a call of code can.
pub(crate) fn next_passes<'m, V: View<'m>>(
    callers: &Callers<'m>,
    top: &Current<'m>,
    view: &V,
) -> bool
    requires joined { IsJoined callers.now top.now }
    requires live { is_live top.now ≡ true }
    requires rooms { RoomsAre (V.seen view.now).fixed (joined callers.now top.now) }
    requires names { NamesAreThere (V.seen view.now).fixed }
    requires holds { HoldsAll (V.seen view.now).fixed (V.seen view.now).units }
    requires rest { AreInRange ((V.seen view.now).fixed.counts top.now.act.unit) top.now.act.rest }
    ensures { result ≡ passes_limit (V.seen view.now).fixed (next_in (V.seen view.now) (joined callers.now top.now).frames) }
{
    let Some(i) = top.peek() else {
        return false;
    };
    match named_callee(i) {
        Some(Callee::Function(f)) => {
            call_passes(callers, top, view, 0, view.target(top.unit(), f))
        }
        Some(Callee::Entry { ty, table }) => entry_passes(callers, top, view, ty, table),
        None => false,
    }
}

/// Whether a call of code without parameters and results, over a mark or nothing, would pass a limit of depth.
pub(crate) fn begin_passes<'m, V: View<'m>>(
    callers: &Callers<'m>,
    top: &Current<'m>,
    view: &V,
    unit: u32,
    func: u32,
) -> bool
    requires joined { IsJoined callers.now top.now }
    requires idle { is_live top.now ≡ false }
    requires rooms { RoomsAre (V.seen view.now).fixed (joined callers.now top.now) }
    requires nullary { type_seen (V.seen view.now).fixed (Ref.Own unit func) ≡ Some nullary }
    ensures { result ≡ passes_limit (V.seen view.now).fixed (called_over (V.seen view.now) (under_of callers.now top.now) (Ref.Own unit func)) }
{
    let _top = top;
    passes_over(
        callers.count(),
        callers.room(),
        view.room(unit, func) as usize,
    )
}
