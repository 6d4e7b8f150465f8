// The machine.
ghost use Rattle.std.specs.Prelude.{◌≡◌, ◌≢◌, ◌≤◌, ◌<◌, ◌^◌, [], ◌∷◌, ◌++◌, length, map, reverse, take, drop, is_some, true, false, slice_get, unwrap_or, All, IfOk, OnOk, OnErr, Some, IsTrue};
ghost use Rattle.spec_safety.specs.spec_binary.Indices.{nullary};
ghost use Rattle.spec_safety.specs.spec_runtime.Hosts.{writes_fit, all_written};
ghost use Rattle.wasm_form.specs.declared.runtime.Value.TheVariants.{Num};
ghost use Rattle.spec_safety.specs.spec_execution.Values.{take_values, numbers_of};
ghost use Rattle.spec_safety.specs.spec_execution.Activations.{with_values};
ghost use Rattle.spec_safety.specs.spec_execution.Views.{type_of as type_seen};
ghost use Rattle.wasm_step.specs.Tops.{with_act};
ghost use Rattle.wasm_step.specs.Primitives.{HasSpare, IsIdle, Widened, with_rest};
ghost use Rattle.wasm_machine.specs.Stacks.{empty_stack, is_live, joined, IsJoined};
ghost use Rattle.wasm_step.specs.Moves.{AreSame, between};
ghost use Rattle.wasm_machine.specs.Machines.{IsOver, IsReady, IsStart, Stepped, QuickStepped, Told, IsWanting, FitsAnswer, Answered, IsCallingOutside, MayMark, MayTrap, Marks, IsMarked, IsExited, IsAtMark, Unmarks, IsExpecting, Received, IsEnd};
ghost use Rattle.wasm_machine.specs.Machines.{Begins, next_in, is_deep_next, is_deep_call, lost_machine, ended, going, settled, at_point, Runs, on_top};

use crate::callers::{Caller, Callers};
use crate::calls::{advance, begin_own, begin_passes, end, next_passes, outside_call};
use crate::event::Event;
use crate::told::is_of_bytes;
use std::alloc::Global;
use std::marker::Model;
use std::mem;
use wasm_form::{Answer, Asked, List, Memory, Ref, Trap, ValType, Write};
use wasm_step::{Current, Done};
use wasm_view::View;

/// What a machine is at: it goes on, waits for the host function of an entry with so many results or for a function of the
/// loader, has ended, or found no memory.
#[derive(Clone, Copy, Debug, PartialEq, Eq)]
pub enum Standing {
    Moving,
    Asking(u32, usize),
    Loading,
    Returned,
    Trapped(Trap),
    Exited(u32),
    Lost,
}

/// What is on top of a call stack: nothing, code, or a mark.
#[derive(Clone, Copy, Debug, PartialEq, Eq)]
pub enum StackTop {
    Nothing,
    Code,
    Mark(u32),
}

/// A machine that runs code over a view: a call stack, on which marks may stand between activations. Contracts see it as a
/// `MachineState`. Code is borrowed, and never copied.
#[derive(Drop)]
pub struct Machine<'m> {
    callers: Callers<'m>,
    top: Current<'m>,
    standing: Standing,
}

impl<'m> Model for Machine<'m> {
    ghost use Rattle.wasm_form.specs.contracts.instr.Instr as instructions;
    ghost use Rattle.std.specs.Coded.{codes};
    ghost use Rattle.wasm_machine.specs.Machines.{MachineState};
    ghost use Rattle.wasm_machine.specs.Whole.{machine_of, IsMachine};

    ghost Value = { MachineState };

    ghost coded = { Prim.hlevel (codes, instructions.the_row.coded) };

    ghost view = { machine_of };

    ghost invariant = { IsMachine };
}

impl<'m> Machine<'m> {
    /// An empty call stack. It takes no memory.
    pub fn new(alloc: Global) -> Machine<'m>
        ensures { result ≡ (record { stack = empty_stack; standing = Standing.Moving }) }
    {
        Machine {
            callers: Callers::new(alloc),
            top: Current::new(alloc),
            standing: Standing::Moving,
        }
    }

    /// What it is at.
    pub fn standing(&self) -> Standing
        ensures { result ≡ self.now.standing }
    {
        self.standing
    }

    /// What is on top of its call stack.
    pub fn top(&self) -> StackTop
        ensures { result ≡ on_top self.now.stack.frames }
    {
        if self.top.is_live() {
            return StackTop::Code;
        }
        match self.callers.last() {
            None => StackTop::Nothing,
            Some(Caller::Mark(tag)) => StackTop::Mark(tag),
            Some(Caller::Active(_)) => unreachable!(),
        }
    }

    /// Calls a function without parameters and results, over an empty call stack or a mark: `Moved`, `Waits` for a host
    /// function, `Trapped` for a stub, or `Deep` with nothing changed. Without memory `Memory`, from then on.
    pub fn begin<V: View<'m>>(&mut self, alloc: Global, view: &V, r: Ref) -> Result<Event, Memory>
        requires over { IsOver (V.seen view.now).fixed (V.seen view.now).units (V.seen view.now).memory self.old }
        requires start { IsStart self.old }
        requires nullary { type_seen (V.seen view.now).fixed r ≡ Some nullary }
        ensures told { IfOk result (λ e. Begins (V.seen view.now) e r self.old self.new) }
        ensures lost { OnErr result (self.new ≡ lost_machine) }
        ensures over { IsOver (V.seen view.now).fixed (V.seen view.now).units (V.seen view.now).memory self.new }
    {
        if self.standing == Standing::Lost {
            return Err(Memory);
        }
        match r {
            Ref::Stub { .. } => {
                self.end(Standing::Trapped(Trap::Unreachable));
                Ok(Event::Trapped(Trap::Unreachable))
            }
            Ref::Host(entry) => {
                self.standing = Standing::Asking(entry, 0);
                Ok(Event::Waits(Asked {
                    entry,
                    args: List::of(Vec::new(alloc)),
                }))
            }
            Ref::Loader(_) => unreachable!(),
            Ref::Own { unit, func } => match begin_own(
                &self.callers,
                &mut self.top,
                alloc,
                view,
                unit,
                func,
            ) {
                Done::Goes => Ok(Event::Moved),
                Done::Deep => Ok(Event::Deep),
                _ => {
                    lose(&mut self.callers, &mut self.top, &mut self.standing);
                    Err(Memory)
                }
            },
        }
    }

    /// Whether `begin` with this function would answer `Deep`: the call would pass a limit of depth. It takes no memory. Of a machine that
    /// found no memory `false`.
    pub fn begin_deep<V: View<'m>>(&self, view: &V, r: Ref) -> bool
        requires over { IsOver (V.seen view.now).fixed (V.seen view.now).units (V.seen view.now).memory self.now }
        requires start { IsStart self.now }
        requires nullary { type_seen (V.seen view.now).fixed r ≡ Some nullary }
        ensures { result ≡ is_deep_call (V.seen view.now) r self.now }
    {
        match (self.standing, r) {
            (Standing::Moving, Ref::Own { unit, func }) => begin_passes(
                &self.callers,
                &self.top,
                view,
                unit,
                func,
            ),
            _ => false,
        }
    }

    /// Whether `step` would answer `Deep`: the next step of the code on top would pass a limit of depth. It takes no memory. Where a mark is
    /// on top, and of an end, `false`.
    pub fn deep<V: View<'m>>(&self, view: &V) -> bool
        requires over { IsOver (V.seen view.now).fixed (V.seen view.now).units (V.seen view.now).memory self.now }
        requires ready { IsReady self.now }
        ensures { result ≡ is_deep_next (V.seen view.now) self.now }
    {
        match self.standing {
            Standing::Moving => self.top.is_live() && next_passes(&self.callers, &self.top, view),
            _ => false,
        }
    }

    /// Makes one step, as `step` does, and answers in few bytes: `Outside`, `Exited` and `Marked` don't tell what takes more.
    fn quick<V: View<'m>>(&mut self, alloc: Global, view: &mut V) -> Done
        requires over { IsOver (V.seen view.old).fixed (V.seen view.old).units (V.seen view.old).memory self.old }
        requires ready { IsReady self.old }
        ensures stepped { QuickStepped (V.seen view.old).fixed result self.old self.new (between (V.seen view.old) (V.seen view.new)) }
        ensures over { IsOver (V.seen view.old).fixed (V.seen view.new).units (V.seen view.new).memory self.new }
        ensures fixed { (V.seen view.new).fixed ≡ (V.seen view.old).fixed }
    {
        match self.standing {
            Standing::Moving => {}
            Standing::Returned => return Done::Returned,
            Standing::Trapped(trap) => return Done::Trapped(trap),
            Standing::Exited(_) => return Done::Exited,
            Standing::Lost => return Done::NoMemory,
            Standing::Asking(..) | Standing::Loading => unreachable!(),
        }
        self.run(alloc, view, 1).1
    }

    /// The same for a set, over `run_apart`.
    fn quick_apart<V: View<'m>>(&mut self, alloc: Global, view: &mut V) -> Done
        requires over { IsOver (V.seen view.old).fixed (V.seen view.old).units (V.seen view.old).memory self.old }
        requires ready { IsReady self.old }
        ensures stepped { QuickStepped (V.seen view.old).fixed result self.old self.new (between (V.seen view.old) (V.seen view.new)) }
        ensures over { IsOver (V.seen view.old).fixed (V.seen view.new).units (V.seen view.new).memory self.new }
        ensures fixed { (V.seen view.new).fixed ≡ (V.seen view.old).fixed }
    {
        match self.standing {
            Standing::Moving => {}
            Standing::Returned => return Done::Returned,
            Standing::Trapped(trap) => return Done::Trapped(trap),
            Standing::Exited(_) => return Done::Exited,
            Standing::Lost => return Done::NoMemory,
            Standing::Asking(..) | Standing::Loading => unreachable!(),
        }
        self.run_apart(alloc, view, 1).1
    }

    /// Makes steps of code, so many or fewer, while the code goes on: how many were made, and what the next one came to, or `Goes` where as
    /// many were made. What is said of `quick` holds of this next step.
    pub fn run<V: View<'m>>(&mut self, alloc: Global, view: &mut V, most: u64) -> (u64, Done)
        requires over { IsOver (V.seen view.old).fixed (V.seen view.old).units (V.seen view.old).memory self.old }
        requires ready { IsReady self.old }
        requires moving { self.old.standing ≡ Standing.Moving }
        ensures ran { Runs (V.seen view.old).fixed result.0 result.1 (at_point self.old (V.seen view.old)) (at_point self.new (V.seen view.new)) }
        ensures over { IsOver (V.seen view.old).fixed (V.seen view.new).units (V.seen view.new).memory self.new }
        ensures fixed { (V.seen view.new).fixed ≡ (V.seen view.old).fixed }
        ensures most { result.1 ≡ Done.Goes → result.0 ≡ most }
        ensures fewer { result.1 ≢ Done.Goes → result.0 < most }
    {
        let mut top = mem::replace(&mut self.top, Current::new(alloc));
        let (made, done) = steps_of_code(
            &mut self.callers,
            &mut top,
            &mut self.top,
            alloc,
            view,
            most,
        );
        self.top = top;
        settle(&mut self.callers, &mut self.top, &mut self.standing, done);
        (made, done)
    }

    /// The same over steps that are a function of their own, before they are inlined as it is small: the compiler makes the better loop of
    /// them for the run of a set, and the worse one for that of a module.
    pub fn run_apart<V: View<'m>>(&mut self, alloc: Global, view: &mut V, most: u64) -> (u64, Done)
        requires over { IsOver (V.seen view.old).fixed (V.seen view.old).units (V.seen view.old).memory self.old }
        requires ready { IsReady self.old }
        requires moving { self.old.standing ≡ Standing.Moving }
        ensures ran { Runs (V.seen view.old).fixed result.0 result.1 (at_point self.old (V.seen view.old)) (at_point self.new (V.seen view.new)) }
        ensures over { IsOver (V.seen view.old).fixed (V.seen view.new).units (V.seen view.new).memory self.new }
        ensures fixed { (V.seen view.new).fixed ≡ (V.seen view.old).fixed }
        ensures most { result.1 ≡ Done.Goes → result.0 ≡ most }
        ensures fewer { result.1 ≢ Done.Goes → result.0 < most }
    {
        let mut top = mem::replace(&mut self.top, Current::new(alloc));
        let (made, done) = steps_apart(
            &mut self.callers,
            &mut top,
            &mut self.top,
            alloc,
            view,
            most,
        );
        self.top = top;
        settle(&mut self.callers, &mut self.top, &mut self.standing, done);
        (made, done)
    }

    /// Makes one step of the code on top, tells the mark on top, or answers the end again. Without memory `Memory`, from then on:
    /// that is only where code calls or grows.
    pub fn step<V: View<'m>>(&mut self, alloc: Global, view: &mut V) -> Result<Event, Memory>
        requires over { IsOver (V.seen view.old).fixed (V.seen view.old).units (V.seen view.old).memory self.old }
        requires ready { IsReady self.old }
        ensures stepped { IfOk result (λ e. Stepped (V.seen view.old).fixed e self.old self.new (between (V.seen view.old) (V.seen view.new))) }
        ensures wanting { OnErr result (IsWanting self.old) }
        ensures lost { OnErr result ((self.new ≡ lost_machine) × AreSame (between (V.seen view.old) (V.seen view.new))) }
        ensures over { IsOver (V.seen view.old).fixed (V.seen view.new).units (V.seen view.new).memory self.new }
        ensures fixed { (V.seen view.new).fixed ≡ (V.seen view.old).fixed }
    {
        match self.quick(alloc, view) {
            Done::Goes => Ok(Event::Moved),
            Done::Trapped(trap) => Ok(Event::Trapped(trap)),
            Done::Returned => Ok(Event::Returned),
            Done::Exited => Ok(Event::Exited(self.exit_code())),
            Done::Marked => Ok(Event::Marked(self.mark_on_top())),
            Done::Deep => Ok(Event::Deep),
            Done::NoMemory => Err(Memory),
            Done::Outside => self.ask(alloc, view),
        }
    }

    /// The same for a set, over `run_apart`.
    pub fn step_apart<V: View<'m>>(&mut self, alloc: Global, view: &mut V) -> Result<Event, Memory>
        requires over { IsOver (V.seen view.old).fixed (V.seen view.old).units (V.seen view.old).memory self.old }
        requires ready { IsReady self.old }
        ensures stepped { IfOk result (λ e. Stepped (V.seen view.old).fixed e self.old self.new (between (V.seen view.old) (V.seen view.new))) }
        ensures wanting { OnErr result (IsWanting self.old) }
        ensures lost { OnErr result ((self.new ≡ lost_machine) × AreSame (between (V.seen view.old) (V.seen view.new))) }
        ensures over { IsOver (V.seen view.old).fixed (V.seen view.new).units (V.seen view.new).memory self.new }
        ensures fixed { (V.seen view.new).fixed ≡ (V.seen view.old).fixed }
    {
        match self.quick_apart(alloc, view) {
            Done::Goes => Ok(Event::Moved),
            Done::Trapped(trap) => Ok(Event::Trapped(trap)),
            Done::Returned => Ok(Event::Returned),
            Done::Exited => Ok(Event::Exited(self.exit_code())),
            Done::Marked => Ok(Event::Marked(self.mark_on_top())),
            Done::Deep => Ok(Event::Deep),
            Done::NoMemory => Err(Memory),
            Done::Outside => self.ask(alloc, view),
        }
    }
}

// ---- what is outside, marks and answers

impl<'m> Machine<'m> {
    /// The code that the program exited with.
    fn exit_code(&self) -> u32
        requires { IsExited self.now.standing }
        ensures { self.now.standing ≡ Standing.Exited result }
    {
        match self.standing {
            Standing::Exited(code) => code,
            _ => unreachable!(),
        }
    }

    /// The mark on top.
    fn mark_on_top(&self) -> u32
        requires { IsMarked self.now }
        ensures { IsAtMark (Event.Marked result) self.now.stack.frames }
    {
        match self.callers.last() {
            Some(Caller::Mark(tag)) => tag,
            _ => unreachable!(),
        }
    }

    /// Asks what is outside: the next step is a call of it.
    fn ask<V: View<'m>>(&mut self, alloc: Global, view: &V) -> Result<Event, Memory>
        requires over { IsOver (V.seen view.now).fixed (V.seen view.now).units (V.seen view.now).memory self.old }
        requires outside { IsCallingOutside (V.seen view.now).fixed (V.seen view.now).units self.old }
        ensures told { IfOk result (λ e. Told (V.seen view.now).fixed e (next_in (V.seen view.now) self.old.stack.frames) self.old self.new (between (V.seen view.now) (V.seen view.now))) }
        ensures lost { OnErr result (self.new ≡ lost_machine) }
        ensures over { IsOver (V.seen view.now).fixed (V.seen view.now).units (V.seen view.now).memory self.new }
    {
        let call = outside_call(&self.top, view);
        let ty = view.type_of(call.target);
        let params = ty.params.items();
        let count = ty.results.items().len();
        let Ok(args) = leave(&mut self.top, alloc, call.above, params, count) else {
            lose(&mut self.callers, &mut self.top, &mut self.standing);
            return Err(Memory);
        };
        match call.target {
            Ref::Host(entry) => {
                self.standing = Standing::Asking(entry, count);
                Ok(Event::Waits(Asked {
                    entry,
                    args: List::of(args),
                }))
            }
            Ref::Loader(which) => {
                self.standing = Standing::Loading;
                Ok(Event::Loader {
                    call: which,
                    first: argument(&args, 0),
                    second: argument(&args, 1),
                })
            }
            Ref::Own { .. } | Ref::Stub { .. } => unreachable!(),
        }
    }

    /// Puts a mark on an empty call stack, or on what waits for a function of the loader. Without memory `Memory`, from then on.
    #[tactic(auto, using(crate::proofs::Receiving::marks_over))]
    pub fn mark<V: View<'m>>(&mut self, alloc: Global, view: &V, tag: u32) -> Result<(), Memory>
        requires over { IsOver (V.seen view.now).fixed (V.seen view.now).units (V.seen view.now).memory self.old }
        requires may { MayMark self.old }
        ensures marked { OnOk result (Marks tag self.old self.new) }
        ensures lost { OnErr result (self.new ≡ lost_machine) }
        ensures over { IsOver (V.seen view.now).fixed (V.seen view.now).units (V.seen view.now).memory self.new }
    {
        self.put_mark(alloc, tag)
    }

    // The same, without what is said of the view.
    fn put_mark(&mut self, alloc: Global, tag: u32) -> Result<(), Memory>
        requires { MayMark self.old }
        ensures marked { OnOk result (Marks tag self.old self.new) }
        ensures lost { OnErr result (self.new ≡ lost_machine) }
    {
        if self.standing == Standing::Lost {
            return Err(Memory);
        }
        if self.top.spare(alloc, 1).is_err() {
            lose(&mut self.callers, &mut self.top, &mut self.standing);
            return Err(Memory);
        }
        if self.top.is_live() {
            let place = self.top.park();
            if self.callers.push(place).is_err() {
                lose(&mut self.callers, &mut self.top, &mut self.standing);
                return Err(Memory);
            }
        }
        if self.callers.mark(tag).is_err() {
            lose(&mut self.callers, &mut self.top, &mut self.standing);
            return Err(Memory);
        }
        self.standing = Standing::Moving;
        Ok(())
    }

    /// Takes the mark on top away: what waited for a function of the loader under it waits again.
    #[tactic(auto, using(crate::proofs::Receiving::unmarks_over))]
    pub fn unmark<V: View<'m>>(&mut self, view: &V)
        requires over { IsOver (V.seen view.now).fixed (V.seen view.now).units (V.seen view.now).memory self.old }
        requires marked { IsMarked self.old }
        ensures unmarked { Unmarks self.old self.new }
        ensures over { IsOver (V.seen view.now).fixed (V.seen view.now).units (V.seen view.now).memory self.new }
    {
        self.take_mark();
    }

    // The same, without what is said of the view.
    fn take_mark(&mut self)
        requires { IsMarked self.old }
        ensures { Unmarks self.old self.new }
    {
        let _ = self.callers.pop();
        if let Some(Caller::Active(place)) = self.callers.last() {
            let _ = self.callers.pop();
            self.top.resume(place);
            self.standing = Standing::Loading;
        }
    }

    /// Takes the answer of the host function that is waited for: its writes in order and then its results, or the end.
    pub fn answer<V: View<'m>>(&mut self, view: &mut V, a: &Answer)
        requires over { IsOver (V.seen view.old).fixed (V.seen view.old).units (V.seen view.old).memory self.old }
        requires fits { FitsAnswer (V.seen view.old).fixed (V.seen view.old).memory a.now self.old.standing }
        ensures answered { Answered a.now self.old self.new (between (V.seen view.old) (V.seen view.new)) }
        ensures over { IsOver (V.seen view.old).fixed (V.seen view.new).units (V.seen view.new).memory self.new }
        ensures fixed { (V.seen view.new).fixed ≡ (V.seen view.old).fixed }
    {
        is_of_bytes(a);
        match a {
            Answer::Exit(code) => self.end(Standing::Exited(*code)),
            Answer::Reply { results, writes } => {
                write_all(view, writes.items());
                self.receive(results.items());
            }
        }
    }

    // Goes on with the results of a host function.
    fn receive(&mut self, results: &[u64])
        requires { IsExpecting self.old (length results.now) }
        ensures received { Received self.old.stack.frames results.now self.new }
        ensures rooms { self.new.stack.rooms ≡ self.old.stack.rooms }
    {
        if self.top.is_live() {
            push_numbers(&mut self.top, results);
            self.standing = Standing::Moving;
        } else if self.callers.last().is_none() {
            self.end(Standing::Returned);
        } else {
            self.standing = Standing::Moving;
        }
    }

    /// Goes on with the result of a function of the loader.
    pub fn give<V: View<'m>>(&mut self, view: &V, value: u32)
        requires over { IsOver (V.seen view.now).fixed (V.seen view.now).units (V.seen view.now).memory self.old }
        requires loading { self.old.standing ≡ Standing.Loading }
        ensures received { Received self.old.stack.frames (value ∷ []) self.new }
        ensures rooms { self.new.stack.rooms ≡ self.old.stack.rooms }
        ensures over { IsOver (V.seen view.now).fixed (V.seen view.now).units (V.seen view.now).memory self.new }
    {
        self.top.push_spare(u64::from(value));
        self.standing = Standing::Moving;
    }

    /// Ends by a trap of what was called outside the code: a function of the loader, or what put the mark on top.
    pub fn trap(&mut self, why: Trap)
        requires { MayTrap self.old }
        ensures { self.new ≡ ended (Standing.Trapped why) }
    {
        self.end(Standing::Trapped(why));
    }

    // Nothing is left but an end.
    fn end(&mut self, standing: Standing)
        requires { IsEnd standing }
        ensures { self.new ≡ ended standing }
    {
        end_all(
            &mut self.callers,
            &mut self.top,
            &mut self.standing,
            standing,
        );
    }
}

/// A step where nothing remains to be run of the innermost block, or where nothing is on top, whose end or loss is still to be kept.
#[inline(always)]
fn step_at_end<'m, V: View<'m>>(
    callers: &mut Callers<'m>,
    top: &mut Current<'m>,
    spare: &mut Current<'m>,
    view: &V,
) -> Done
    requires joined { IsJoined callers.old top.old }
    requires over { IsOver (V.seen view.now).fixed (V.seen view.now).units (V.seen view.now).memory (going (joined callers.old top.old)) }
    requires some { (joined callers.old top.old).frames ≢ [] }
    requires done { top.old.act.rest ≡ [] }
    ensures stepped { QuickStepped (V.seen view.now).fixed result (going (joined callers.old top.old)) (settled result (joined callers.new top.new)) (between (V.seen view.now) (V.seen view.now)) }
    ensures over { IsOver (V.seen view.now).fixed (V.seen view.now).units (V.seen view.now).memory (settled result (joined callers.new top.new)) }
    ensures joined { result ≢ Done.NoMemory → IsJoined callers.new top.new }
{
    if !top.is_live() {
        return Done::Marked;
    }
    end(callers, top, spare, view)
}

/// One step of the code on top, whose end or loss is still to be kept.
#[inline(always)]
fn step_code<'m, V: View<'m>>(
    callers: &mut Callers<'m>,
    top: &mut Current<'m>,
    spare: &mut Current<'m>,
    alloc: Global,
    view: &mut V,
) -> Done
    requires joined { IsJoined callers.old top.old }
    requires over { IsOver (V.seen view.old).fixed (V.seen view.old).units (V.seen view.old).memory (going (joined callers.old top.old)) }
    requires some { (joined callers.old top.old).frames ≢ [] }
    ensures stepped { QuickStepped (V.seen view.old).fixed result (going (joined callers.old top.old)) (settled result (joined callers.new top.new)) (between (V.seen view.old) (V.seen view.new)) }
    ensures over { IsOver (V.seen view.old).fixed (V.seen view.new).units (V.seen view.new).memory (settled result (joined callers.new top.new)) }
    ensures joined { result ≢ Done.NoMemory → IsJoined callers.new top.new }
    ensures fixed { (V.seen view.new).fixed ≡ (V.seen view.old).fixed }
{
    match top.peek() {
        None => step_at_end(callers, top, spare, view),
        Some(i) => advance(callers, top, spare, alloc, view, i),
    }
}

/// Steps of the code on top while it goes on, so many or fewer: how many were made, and what the next one came to, whose end or loss is still
/// to be kept.
#[inline(always)]
fn steps_of_code<'m, V: View<'m>>(
    callers: &mut Callers<'m>,
    top: &mut Current<'m>,
    spare: &mut Current<'m>,
    alloc: Global,
    view: &mut V,
    most: u64,
) -> (u64, Done)
    requires joined { IsJoined callers.old top.old }
    requires over { IsOver (V.seen view.old).fixed (V.seen view.old).units (V.seen view.old).memory (going (joined callers.old top.old)) }
    requires some { (joined callers.old top.old).frames ≢ [] }
    ensures ran { Runs (V.seen view.old).fixed result.0 result.1 (at_point (going (joined callers.old top.old)) (V.seen view.old)) (at_point (settled result.1 (joined callers.new top.new)) (V.seen view.new)) }
    ensures over { IsOver (V.seen view.old).fixed (V.seen view.new).units (V.seen view.new).memory (settled result.1 (joined callers.new top.new)) }
    ensures joined { result.1 ≢ Done.NoMemory → IsJoined callers.new top.new }
    ensures fixed { (V.seen view.new).fixed ≡ (V.seen view.old).fixed }
    ensures most { result.1 ≡ Done.Goes → result.0 ≡ most }
    ensures fewer { result.1 ≢ Done.Goes → result.0 < most }
{
    let mut left = most;
    'steps: while left > 0 {
        match step_code(callers, top, spare, alloc, view) {
            Done::Goes => left -= 1,
            done => return (most - left, done),
        }
    }
    (most, Done::Goes)
}

/// The same, as a function of its own.
fn steps_apart<'m, V: View<'m>>(
    callers: &mut Callers<'m>,
    top: &mut Current<'m>,
    spare: &mut Current<'m>,
    alloc: Global,
    view: &mut V,
    most: u64,
) -> (u64, Done)
    requires joined { IsJoined callers.old top.old }
    requires over { IsOver (V.seen view.old).fixed (V.seen view.old).units (V.seen view.old).memory (going (joined callers.old top.old)) }
    requires some { (joined callers.old top.old).frames ≢ [] }
    ensures ran { Runs (V.seen view.old).fixed result.0 result.1 (at_point (going (joined callers.old top.old)) (V.seen view.old)) (at_point (settled result.1 (joined callers.new top.new)) (V.seen view.new)) }
    ensures over { IsOver (V.seen view.old).fixed (V.seen view.new).units (V.seen view.new).memory (settled result.1 (joined callers.new top.new)) }
    ensures joined { result.1 ≢ Done.NoMemory → IsJoined callers.new top.new }
    ensures fixed { (V.seen view.new).fixed ≡ (V.seen view.old).fixed }
    ensures most { result.1 ≡ Done.Goes → result.0 ≡ most }
    ensures fewer { result.1 ≢ Done.Goes → result.0 < most }
{
    steps_of_code(callers, top, spare, alloc, view, most)
}

/// Keeps the end that a step came to, or that no memory was found.
fn settle<'m>(callers: &mut Callers<'m>, top: &mut Current<'m>, standing: &mut Standing, done: Done)
    requires moving { standing.old ≡ Standing.Moving }
    requires joined { done ≢ Done.NoMemory → IsJoined callers.old top.old }
    ensures settled { (record { stack = joined callers.new top.new; standing = standing.new }) ≡ settled done (joined callers.old top.old) }
    ensures joined { IsJoined callers.new top.new }
{
    match done {
        Done::Returned => end_all(callers, top, standing, Standing::Returned),
        Done::Trapped(trap) => end_all(callers, top, standing, Standing::Trapped(trap)),
        Done::NoMemory => end_all(callers, top, standing, Standing::Lost),
        _ => {}
    }
}

/// Nothing is left but an end.
fn end_all<'m>(
    callers: &mut Callers<'m>,
    top: &mut Current<'m>,
    standing: &mut Standing,
    end: Standing,
)
    ensures callers { callers.new ≡ [] }
    ensures idle { IsIdle top.new }
    ensures standing { standing.new ≡ end }
{
    callers.clear();
    top.clear();
    *standing = end;
}

/// No memory was found: nothing is left.
fn lose<'m>(callers: &mut Callers<'m>, top: &mut Current<'m>, standing: &mut Standing)
    ensures callers { callers.new ≡ [] }
    ensures idle { IsIdle top.new }
    ensures standing { standing.new ≡ Standing.Lost }
{
    end_all(callers, top, standing, Standing::Lost);
}

/// Goes past a call whose arguments lie under the topmost `above` values, takes these and the arguments off, and takes room for
/// so many results. The numbers among the arguments come back, each by its type.
fn leave(
    top: &mut Current,
    alloc: Global,
    above: usize,
    params: &[ValType],
    count: usize,
) -> Result<Vec<u64>, Memory>
    requires some { 0 < length top.old.act.rest }
    requires above { above ≤ length top.old.act.values }
    requires arguments { is_some (take_values (reverse params.now) (drop above top.old.act.values)) ≡ true }
    ensures args { IfOk result (λ args. args.items ≡ reverse (numbers_of (reverse params.now) (take (length params.now) (drop above top.old.act.values)))) }
    ensures left { OnOk result (Widened (with_act top.old (with_values (with_rest top.old.act (drop 1 top.old.act.rest)) (drop (length params.now) (drop above top.old.act.values)))) top.new) }
    ensures spare { OnOk result (HasSpare top.new count) }
{
    let args = top.arguments(alloc, above, params)?;
    top.advance();
    top.drop_values(above);
    top.drop_values(params.len());
    top.spare(alloc, count)?;
    Ok(args)
}

/// Puts numbers on top, for which there is room.
fn push_numbers(top: &mut Current, numbers: &[u64])
    requires { HasSpare top.old (length numbers.now) }
    ensures { top.new ≡ with_act top.old (with_values top.old.act (reverse (map Num numbers.now) ++ top.old.act.values)) }
{
    for n in numbers {
        top.push_spare(*n);
    }
}

/// The writes of an answer, in order, all of which lie inside the memory.
fn write_all<'m, V: View<'m>>(view: &mut V, writes: &[Write])
    requires { IsTrue (writes_fit writes.now (V.seen view.old).memory) }
    ensures memory { (V.seen view.new).memory ≡ all_written writes.now (V.seen view.old).memory }
    ensures others { (V.seen view.new).units ≡ (V.seen view.old).units }
    ensures fixed { (V.seen view.new).fixed ≡ (V.seen view.old).fixed }
{
    for write in writes {
        if view.memory_put(write.at, write.bytes.items()).is_err() {
            unreachable!();
        }
    }
}

/// An argument of a function of the loader, or 0 where there are fewer.
fn argument(args: &[u64], i: usize) -> u32
    requires { All (λ n. n < 2 ^ 32) args.now }
    ensures { result ≡ unwrap_or (slice_get args.now i) 0 }
{
    match args.get(i) {
        Some(n) => (*n % (1 << 32)) as u32,
        None => 0,
    }
}
