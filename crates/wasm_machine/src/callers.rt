// What lies under the topmost activation.
ghost use Rattle.std.specs.Prelude.{◌≡◌, ◌≤◌, ◌+◌, ◌++◌, ◌∷◌, [], length, reverse, OnOk, IfSome, IfNone, Some};
ghost use Rattle.spec_safety.specs.spec_execution.Limits.{most_activations, most_values};
ghost use Rattle.wasm_machine.specs.Stacks.{rooms_at, total, latest};

use std::alloc::Global;
use std::marker::Model;
use wasm_form::Memory;
use wasm_step::Place;

/// What lies under what runs: an activation that called, or a mark.
#[derive(Clone, Copy)]
pub(crate) enum Caller<'m> {
    Active(Place<'m>),
    Mark(u32),
}

/// The callers, the latest last. Contracts see them as their list. It is counted how many activations they are, and how many
/// values these took room for.
#[derive(Drop)]
pub(crate) struct Callers<'m> {
    list: Vec<Caller<'m>>,
    count: usize,
    room: usize,
}

impl<'m> Model for Callers<'m> {
    ghost use Rattle.std.specs.Prelude.{List};
    ghost use Rattle.wasm_form.specs.contracts.instr.Instr as instructions;
    ghost use Rattle.std.specs.Coded.{codes};
    ghost use Rattle.wasm_machine.specs.declared.callers.Caller.{Caller};
    ghost use Rattle.wasm_machine.specs.Stacks.{AreCounted};

    ghost Value = { List Caller };

    ghost coded = { Prim.hlevel (codes, instructions.the_row.coded) };

    ghost view = { λ c. c.list.items };

    ghost invariant = { λ c. AreCounted c.list.items c.count c.room };
}

impl<'m> Callers<'m> {
    /// None.
    pub(crate) fn new(alloc: Global) -> Callers<'m>
        ensures { result ≡ [] }
    {
        Callers {
            list: Vec::new(alloc),
            count: 0,
            room: 0,
        }
    }

    /// How many activations they are.
    #[inline(always)]
    pub(crate) fn count(&self) -> usize
        ensures count { result ≡ length (rooms_at (reverse self.now)) }
        ensures most { result ≤ most_activations }
    {
        self.count
    }

    /// How many values they took room for.
    #[inline(always)]
    pub(crate) fn room(&self) -> usize
        ensures room { result ≡ total (rooms_at (reverse self.now)) }
        ensures most { result ≤ most_values }
    {
        self.room
    }

    /// Adds an activation, with which no limit is passed.
    #[inline(always)]
    pub(crate) fn push(&mut self, place: Place<'m>) -> Result<(), Memory>
        requires count { length (rooms_at (reverse self.old)) + 1 ≤ most_activations }
        requires room { total (rooms_at (reverse self.old)) + place.room ≤ most_values }
        ensures { OnOk result (self.new ≡ self.old ++ Caller.Active place.entry ∷ []) }
    {
        self.list.push(Caller::Active(place))?;
        self.count += 1;
        self.room += place.room;
        Ok(())
    }

    /// Adds a mark.
    pub(crate) fn mark(&mut self, tag: u32) -> Result<(), Memory>
        ensures { OnOk result (self.new ≡ self.old ++ Caller.Mark tag ∷ []) }
    {
        self.list.push(Caller::Mark(tag))?;
        Ok(())
    }

    /// The latest.
    #[inline(always)]
    pub(crate) fn last(&self) -> Option<Caller<'m>>
        ensures { result ≡ latest (reverse self.now) }
    {
        match self.list.last() {
            Some(caller) => Some(*caller),
            None => None,
        }
    }

    /// Takes the latest away.
    #[inline(always)]
    pub(crate) fn pop(&mut self) -> Option<Caller<'m>>
        ensures some { IfSome result (λ caller. self.old ≡ self.new ++ caller ∷ []) }
        ensures none { IfNone result (self.old ≡ []) }
        ensures same { IfNone result (self.new ≡ self.old) }
    {
        let caller = self.list.pop()?;
        if let Caller::Active(place) = caller {
            self.count -= 1;
            self.room -= place.room;
        }
        Some(caller)
    }

    /// Takes all away.
    pub(crate) fn clear(&mut self)
        ensures { self.new ≡ [] }
    {
        self.list.clear();
        self.count = 0;
        self.room = 0;
    }
}
