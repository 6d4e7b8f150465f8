// The topmost activation over two flat lists, of values and of open blocks, that all activations share.
ghost use Rattle.std.specs.Prelude.{◌≡◌, ◌≤◌, ◌<◌, ◌+◌, [], ◌∷◌, length, take, drop, reverse, Some, true, option_map, slice_get, slice_set, is_some, nat_lt, IfOk, OnOk};
ghost use Rattle.spec_execution.specs.spec_binary.Indices.{declared_locals};
ghost use Rattle.spec_execution.specs.Values.{take_values, numbers_of};
ghost use Rattle.spec_execution.specs.Activations.{with_values, pushed};
ghost use Rattle.wasm_step.specs.Tops.{with_act, IsTooHigh, IsTooNested, HasRoom, IsLaidOut};
ghost use Rattle.wasm_step.specs.Primitives.{number_on, reference_on, with_rest, with_locals, in_block, closed, first_of, arity_of, again_of, first_label, first_level, body_done, Opened, Started, Parked, Dropped, IsIdle, Widened, HasSpare, CanOpen, Spread, idle_at, resumed};

use crate::room::{number, of_kind, push_zeros, slide};
use std::alloc::Global;
use std::marker::Model;
use wasm_cell::Cell;
use wasm_form::{Code, Instr, Memory, Ref, ValType, Value};

/// How many blocks may be open in one activation: those of a body, and one more.
const MOST_BLOCKS: usize = 1001;

/// An open block: where its values begin, how many values a branch to it takes, the instructions at which a branch to a loop
/// goes on, and those after the block. `start` is where the values of the block around it begin.
#[derive(Clone, Copy)]
pub struct Label<'m> {
    start: usize,
    arity: usize,
    again: Option<&'m [Instr]>,
    after: &'m [Instr],
}

/// Where the parts of an activation lie: its locals from `base` to `floor`, the values of its innermost block from `start` on,
/// its blocks from `outer` on, and the instructions that remain. It took room for `room` values and `nesting` blocks.
#[derive(Clone, Copy)]
pub struct Place<'m> {
    pub unit: u32,
    pub func: u32,
    pub room: usize,
    nesting: usize,
    results: usize,
    base: usize,
    floor: usize,
    start: usize,
    outer: usize,
    rest: &'m [Instr],
}

/// The topmost activation. Contracts see it as a `Top`.
#[derive(Drop)]
pub struct Current<'m> {
    values: Vec<Cell>,
    labels: Vec<Label<'m>>,
    place: Place<'m>,
}

impl<'m> Model for Current<'m> {
    ghost use Rattle.wasm_form.specs.contracts.instr.Instr as instructions;
    ghost use Rattle.std.specs.Coded.{codes};
    ghost use Rattle.wasm_step.specs.Tops.{Top, view_of, IsFlat};

    ghost Value = { Top };

    ghost coded = { Prim.hlevel (codes, instructions.the_row.coded) };

    ghost view = { view_of };

    ghost invariant = { IsFlat };
}

impl<'m> Current<'m> {
    /// Nothing yet. It takes no memory.
    pub fn new(alloc: Global) -> Current<'m>
        ensures under { result.under ≡ [] }
        ensures outer { result.outer ≡ [] }
        ensures idle { IsIdle result }
    {
        Current {
            values: Vec::new(alloc),
            labels: Vec::new(alloc),
            place: idle_place(0, 0),
        }
    }

    #[inline(always)]
    pub fn unit(&self) -> u32
        ensures { result ≡ self.now.act.unit }
    {
        self.place.unit
    }

    /// How many results its function has.
    #[inline(always)]
    pub fn results(&self) -> usize
        ensures { result ≡ self.now.act.results }
    {
        self.place.results
    }

    /// How many values it took room for.
    #[inline(always)]
    pub fn room(&self) -> usize
        ensures { result ≡ self.now.room }
    {
        self.place.room
    }

    // ---- values

    /// How many values stand above the innermost block.
    #[inline(always)]
    pub fn height(&self) -> usize
        ensures { result ≡ length self.now.act.values }
    {
        self.values.len() - self.place.start
    }

    /// Puts a value on top, within the room that was taken.
    #[inline(always)]
    pub fn push(&mut self, c: Cell)
        requires { IsTooHigh self.old (pushed self.old.act c) → ⊥ }
        ensures { self.new ≡ with_act self.old (pushed self.old.act c) }
    {
        self.values.push_reserved(c);
    }

    /// Takes the topmost value.
    #[inline(always)]
    pub fn pop(&mut self) -> Cell
        requires { 0 < length self.old.act.values }
        ensures { self.old ≡ with_act self.new (pushed self.new.act result) }
    {
        self.values.take_last().read()
    }

    /// The topmost value.
    #[inline(always)]
    pub fn value(&self) -> Cell
        requires { 0 < length self.now.act.values }
        ensures { Some result ≡ slice_get self.now.act.values 0 }
    {
        self.values[self.values.len() - 1].read()
    }

    /// Puts a value in place of the topmost one.
    #[inline(always)]
    pub fn set_top(&mut self, c: Cell)
        requires { 0 < length self.old.act.values }
        ensures { self.new ≡ with_act self.old (with_values self.old.act (c ∷ drop 1 self.old.act.values)) }
    {
        let last = self.values.len() - 1;
        self.values[last] = c;
    }

    /// The topmost value, which is a number.
    pub fn number(&self) -> u64
        requires { is_some (number_on self.now.act.values) ≡ true }
        ensures { Some result ≡ number_on self.now.act.values }
    {
        self.value().bits()
    }

    /// Puts a number in place of the topmost value, which is one.
    pub fn set_number(&mut self, n: u64)
        requires { is_some (number_on self.old.act.values) ≡ true }
        ensures { self.new ≡ with_act self.old (with_values self.old.act (Value.Num n ∷ drop 1 self.old.act.values)) }
    {
        let last = self.values.len() - 1;
        self.values[last].set_bits(n);
    }

    /// Takes the topmost value, which is a number.
    pub fn pop_number(&mut self) -> u64
        requires { is_some (number_on self.old.act.values) ≡ true }
        ensures { self.old ≡ with_act self.new (pushed self.new.act (Value.Num result)) }
    {
        self.pop().bits()
    }

    /// Takes the topmost value, which is a reference.
    #[inline(always)]
    pub fn pop_reference(&mut self) -> Option<Ref>
        requires { is_some (reference_on self.old.act.values) ≡ true }
        ensures { self.old ≡ with_act self.new (pushed self.new.act (Value.Func result)) }
    {
        self.pop().func()
    }

    /// The topmost value, if it is a number.
    pub fn find_number(&self) -> Option<u64>
        ensures { result ≡ number_on self.now.act.values }
    {
        if self.height() == 0 {
            return None;
        }
        match self.value().value() {
            Value::Num(n) => Some(n),
            Value::Func(_) => None,
        }
    }

    /// Keeps the topmost `n` of the values above the innermost block.
    #[inline(always)]
    pub fn keep(&mut self, n: usize)
        requires { n ≤ length self.old.act.values }
        ensures { self.new ≡ with_act self.old (with_values self.old.act (take n self.old.act.values)) }
    {
        slide(&mut self.values, self.place.start, n);
    }

    // ---- locals

    /// A local by its number.
    #[inline(always)]
    pub fn local(&self, k: u32) -> Cell
        requires { is_some (slice_get self.now.act.locals k) ≡ true }
        ensures { Some result ≡ slice_get self.now.act.locals k }
    {
        self.values[self.place.base + k as usize].read()
    }

    /// Sets a local by its number.
    #[inline(always)]
    pub fn set_local(&mut self, k: u32, c: Cell)
        requires { is_some (slice_get self.old.act.locals k) ≡ true }
        ensures { self.new ≡ with_act self.old (with_locals self.old.act (slice_set self.old.act.locals k c)) }
    {
        let at = self.place.base + k as usize;
        self.values[at] = c;
    }

    // ---- instructions

    /// The instruction that comes next.
    #[inline(always)]
    pub fn peek(&self) -> Option<&'m Instr>
        ensures { option_map (λ i. i.now) result ≡ first_of self.now.act.rest }
    {
        self.place.rest.first()
    }

    /// Goes past the next instruction.
    pub fn advance(&mut self)
        requires { 0 < length self.old.act.rest }
        ensures { self.new ≡ with_act self.old (with_rest self.old.act (drop 1 self.old.act.rest)) }
    {
        self.place.rest = &self.place.rest[1..];
    }

    /// Goes on at other instructions.
    #[inline(always)]
    pub fn set_rest(&mut self, rest: &'m [Instr])
        ensures { self.new ≡ with_act self.old (with_rest self.old.act rest.now) }
    {
        self.place.rest = rest;
    }

    // ---- blocks

    /// Opens a block with `n` values off the top, within the room that was taken.
    pub fn enter(&mut self, n: usize, arity: usize, again: Option<&'m [Instr]>, body: &'m [Instr])
        requires values { n ≤ length self.old.act.values }
        requires room { IsTooNested self.old (in_block self.old.act n arity (option_map (λ b. b.now) again) body.now) → ⊥ }
        ensures { self.new ≡ with_act self.old (in_block self.old.act n arity (option_map (λ b. b.now) again.entry) body.now) }
    {
        let label = Label {
            start: self.place.start,
            arity,
            again,
            after: self.place.rest,
        };
        self.labels.push_reserved(label);
        self.place.start = self.values.len() - n;
        self.place.rest = body;
    }

    /// Leaves the innermost block at its end.
    #[inline(always)]
    pub fn leave(&mut self)
        requires { is_some (first_level self.old.act.levels) ≡ true }
        ensures next { Some self.new.act ≡ closed self.old.act self.old.act.levels }
        ensures rest { self.new ≡ with_act self.old self.new.act }
    {
        let label = self.labels.take_last();
        self.place.start = label.start;
        self.place.rest = label.after;
    }

    /// Whether a block is open.
    #[inline(always)]
    pub fn is_open(&self) -> bool
        ensures { result ≡ is_some (first_level self.now.act.levels) }
    {
        self.labels.len() > self.place.outer
    }

    /// How many values a branch to the innermost block takes along.
    #[inline(always)]
    pub fn arity(&self) -> usize
        requires { is_some (first_level self.now.act.levels) ≡ true }
        ensures { result ≡ arity_of self.now.act self.now.act.levels }
    {
        innermost(self.labels.as_slice(), self.place.outer).arity
    }

    /// The instructions of the innermost block, if that is a loop.
    #[inline(always)]
    pub fn again(&self) -> Option<&'m [Instr]>
        requires { is_some (first_level self.now.act.levels) ≡ true }
        ensures { option_map (λ b. b.now) result ≡ again_of self.now.act.levels }
    {
        innermost(self.labels.as_slice(), self.place.outer).again
    }

    /// Makes the body done, with the topmost `n` values as its results.
    #[inline(always)]
    pub fn end_body(&mut self, n: usize)
        requires { n ≤ length self.old.act.values }
        ensures { self.new ≡ with_act self.old (body_done self.old.act n) }
    {
        slide(&mut self.values, self.place.floor, n);
        self.labels.truncate(self.place.outer);
        self.place.start = self.place.floor;
        self.place.rest = &[];
    }

    // ---- calls

    /// Whether the values under the topmost `above` ones are of the kinds of these parameters.
    pub fn has_arguments(&self, above: usize, params: &[ValType]) -> bool
        requires { above ≤ length self.now.act.values }
        ensures { result ≡ is_some (take_values (reverse params.now) (drop above self.now.act.values)) }
    {
        let n = params.len();
        if self.height() - above < n {
            return false;
        }
        let base = self.values.len() - above - n;
        for i in 0..n {
            if !of_kind(params[i], self.values[base + i].value()) {
                return false;
            }
        }
        true
    }

    /// The numbers among the arguments of these parameters under the topmost `above` values, each by its type.
    pub fn arguments(
        &self,
        alloc: Global,
        above: usize,
        params: &[ValType],
    ) -> Result<Vec<u64>, Memory>
        requires above { above + length params.now ≤ length self.now.act.values }
        ensures { IfOk result (λ args. args.items ≡ reverse (numbers_of (reverse params.now) (take (length params.now) (drop above self.now.act.values)))) }
    {
        let mut args = Vec::new(alloc);
        let base = self.values.len() - above - params.len();
        for i in 0..params.len() {
            if let Value::Num(n) = self.values[base + i].value() {
                args.push(number(params[i], n))?;
            }
        }
        Ok(args)
    }

    /// Takes `n` values off the top.
    #[inline(always)]
    pub fn drop_values(&mut self, n: usize)
        requires { n ≤ length self.old.act.values }
        ensures { self.new ≡ with_act self.old (with_values self.old.act (drop n self.old.act.values)) }
    {
        let len = self.values.len() - n;
        self.values.truncate(len);
    }

    /// Takes room for so many values more.
    pub fn spare(&mut self, _alloc: Global, n: usize) -> Result<(), Memory>
        ensures spare { OnOk result (HasSpare self.new n) }
        ensures same { Widened self.old self.new }
    {
        self.values.reserve(n)?;
        Ok(())
    }

    /// Puts a number on top, for which there is room.
    pub fn push_spare(&mut self, n: u64)
        requires { HasSpare self.old 1 }
        ensures { self.new ≡ with_act self.old (pushed self.old.act (Value.Num n)) }
    {
        self.values.push_reserved(Cell::number(n));
    }

    /// Whether there is room for an activation of so many values over what is there.
    #[inline(always)]
    pub fn fits(&self, room: usize) -> bool
        ensures { result ≡ true → CanOpen self.now room }
    {
        room <= self.values.capacity() - self.values.len()
            && MOST_BLOCKS <= self.labels.capacity() - self.labels.len()
    }

    /// Takes room for an activation of so many values over what is there.
    pub fn widen(&mut self, _alloc: Global, room: usize) -> Result<(), Memory>
        requires most { room ≤ 4194304 }
        ensures fits { OnOk result (CanOpen self.new room) }
        ensures same { Spread self.old self.new }
    {
        self.labels.reserve(MOST_BLOCKS)?;
        self.values.reserve(room)?;
        Ok(())
    }

    /// Calls code with its `params` arguments off the top, and answers where the caller lies. It takes `room` values of what there is
    /// room for.
    #[inline(always)]
    pub fn open(
        &mut self,
        unit: u32,
        func: u32,
        room: usize,
        params: usize,
        results: usize,
        code: &'m Code,
    ) -> Place<'m>
        requires arguments { params ≤ length self.old.act.values }
        requires room { params + length (declared_locals code.now.locals) ≤ room }
        requires fits { CanOpen self.old room }
        ensures { Opened self.old self.new unit func room params results code.now result }
    {
        let len = self.values.len();
        push_zeros(&mut self.values, code.locals.items());
        let floor = self.values.len();
        let caller = self.place;
        self.place = Place {
            unit,
            func,
            room,
            nesting: MOST_BLOCKS,
            results,
            base: len - params,
            floor,
            start: floor,
            outer: self.labels.len(),
            rest: code.body.list.items(),
        };
        caller
    }

    /// Begins the first activation over what is there, of code without parameters.
    pub fn start(
        &mut self,
        alloc: Global,
        unit: u32,
        func: u32,
        room: usize,
        results: usize,
        code: &'m Code,
    ) -> Result<(), Memory>
        requires idle { IsIdle self.old }
        requires room { length (declared_locals code.now.locals) ≤ room }
        requires most { room ≤ 4194304 }
        ensures { OnOk result (Started self.old self.new unit func room results code.now) }
    {
        self.widen(alloc, room)?;
        let _ = self.open(unit, func, room, 0, results, code);
        Ok(())
    }

    /// Goes back to what called, with the values that stand here.
    #[inline(always)]
    pub fn resume(&mut self, caller: Place<'m>)
        requires laid { IsLaidOut caller self.old.under self.old.outer }
        requires done { self.old.act.levels ≡ [] }
        requires room { HasRoom caller self.old.capacity self.old.label_capacity }
        ensures { self.new ≡ resumed caller.entry self.old }
    {
        let n = self.values.len() - self.place.start;
        slide(&mut self.values, self.place.base, n);
        self.place = caller;
    }

    /// Leaves nothing on top, and answers where what was on top lies.
    pub fn park(&mut self) -> Place<'m>
        ensures { Parked self.old self.new result }
    {
        let place = self.place;
        self.place = idle_place(self.values.len(), self.labels.len());
        place
    }

    /// Takes what is on top away, and leaves nothing on top.
    pub fn leave_all(&mut self)
        ensures { Dropped self.old self.new }
    {
        self.values.truncate(self.place.base);
        self.labels.truncate(self.place.outer);
        self.place = idle_place(self.values.len(), self.labels.len());
    }

    /// Takes all away.
    pub fn clear(&mut self)
        ensures idle { IsIdle self.new }
        ensures under { self.new.under ≡ [] }
        ensures outer { self.new.outer ≡ [] }
    {
        self.values.clear();
        self.labels.clear();
        self.place = idle_place(0, 0);
    }

    /// Whether an activation is on top.
    #[inline(always)]
    pub fn is_live(&self) -> bool
        ensures { result ≡ nat_lt 0 self.now.nesting }
    {
        self.place.nesting > 0
    }
}

/// The place of nothing, over so many values and open blocks.
fn idle_place<'m>(values: usize, labels: usize) -> Place<'m>
    ensures place { result ≡ idle_at values labels result.rest }
    ensures rest { result.rest.now ≡ [] }
{
    Place {
        unit: 0,
        func: 0,
        room: 0,
        nesting: 0,
        results: 0,
        base: values,
        floor: values,
        start: values,
        outer: labels,
        rest: &[],
    }
}

/// The latest label, which lies beyond the first `outer`.
#[inline(always)]
fn innermost<'m>(labels: &[Label<'m>], outer: usize) -> Label<'m>
    requires { outer < length labels.now }
    ensures { Some result ≡ first_label (reverse (drop outer labels.now)) }
{
    labels[labels.len() - 1]
}
