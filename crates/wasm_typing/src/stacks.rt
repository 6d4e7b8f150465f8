// The stacks of all open blocks, as one list of entries.
ghost use Rattle.std.specs.Prelude.{◌≡◌, ◌<◌, ℕ, List, [], length, reverse, slice_get, OnOk, Some, option_map};
ghost use Rattle.spec_validation.specs.spec_binary.SameTypes.{same_type as same};
ghost use Rattle.spec_validation.specs.Stacks.{begins, fits as fits_entry, has as has_types, take_off, put_on, ends_with as holds_exactly, unreachable, pop as popped, holding};
ghost use Rattle.wasm_typing.specs.Answers.{Obtains, Leaves};
ghost use Rattle.wasm_typing.specs.States.{TypingState, with_stack, without, pushed, noted, entered, restarted, left, labels_of, entry_taken, entries_left};

use crate::fault::TypingFault;
use std::alloc::Global;
use std::marker::Model;
use wasm_form::ValType;

/// Whether two types are one.
pub fn same_type(t: ValType, u: ValType) -> bool
    ensures { result ≡ same t u }
{
    t == u
}

/// Whether an entry may be of this type.
fn fits(t: ValType, entry: Option<ValType>) -> bool
    ensures { result ≡ fits_entry t entry }
{
    match entry {
        Some(u) => same_type(t, u),
        None => true,
    }
}

/// Whether these types are on top, as far as the entries are known.
fn on_top(types: &[ValType], entries: &[Option<ValType>], loose: bool) -> bool
    ensures { result ≡ begins (reverse types.now) (reverse entries.now) loose }
{
    let mut above = types;
    let mut under = entries;
    while let Some((ty, ts)) = above.split_last() {
        let Some((entry, es)) = under.split_last() else {
            return loose;
        };
        if !fits(*ty, *entry) {
            return false;
        }
        above = ts;
        under = es;
    }
    true
}

/// An open block: what a branch to it takes, and where the block around it begins.
#[derive(Clone, Copy)]
pub struct Label<'a> {
    types: &'a [ValType],
    start: usize,
    loose: bool,
}

/// The entries of all open blocks, an unknown one as `None`, and their labels.
#[derive(Drop)]
pub struct Stacks<'a> {
    entries: Vec<Option<ValType>>,
    labels: Vec<Label<'a>>,
    start: usize,
    loose: bool,
    most: usize,
}

impl<'a> Model for Stacks<'a> {
    ghost use Rattle.wasm_typing.specs.States.{TypingState};
    ghost use Rattle.wasm_typing.specs.Layout.{state_of, IsFlat};

    ghost Value = { TypingState };

    ghost view = { state_of };

    ghost invariant = { IsFlat };
}

impl<'a> Stacks<'a> {
    /// No block is open.
    pub fn new(alloc: Global) -> Stacks<'a>
        ensures { result ≡ record { stack = holding []; levels = []; most = 0 } }
    {
        Stacks {
            entries: Vec::new(alloc),
            labels: Vec::new(alloc),
            start: 0,
            loose: false,
            most: 0,
        }
    }

    /// How many entries the innermost block has.
    fn known(&self) -> usize
        ensures { result ≡ length self.now.stack.entries }
    {
        self.entries.len() - self.start
    }

    /// Puts types on.
    pub fn put(&mut self, types: &[ValType]) -> Result<(), TypingFault>
        ensures stack { Leaves result self.new.stack (Some (put_on types.now self.old.stack)) }
        ensures rest { self.new ≡ with_stack self.old self.new.stack }
    {
        for ty in types {
            self.push(Some(*ty))?;
        }
        Ok(())
    }

    /// Puts one entry on.
    pub fn push(&mut self, entry: Option<ValType>) -> Result<(), TypingFault>
        ensures stack { Leaves result self.new.stack (Some (pushed entry self.old.stack)) }
        ensures rest { self.new ≡ with_stack self.old self.new.stack }
    {
        let Ok(()) = self.entries.push(entry) else {
            return Err(TypingFault::Memory);
        };
        Ok(())
    }

    /// Whether these types are on top.
    pub fn has(&self, types: &[ValType]) -> bool
        ensures { result ≡ has_types types.now self.now.stack }
    {
        on_top(types, &self.entries[self.start..], self.loose)
    }

    /// Takes types off.
    pub fn take(&mut self, types: &[ValType]) -> Result<(), TypingFault>
        ensures stack { Leaves result self.new.stack (take_off types.now self.old.stack) }
        ensures rest { self.new ≡ with_stack self.old self.new.stack }
    {
        if !self.has(types) {
            return Err(TypingFault::Invalid);
        }
        self.shorten(types.len());
        Ok(())
    }

    /// Takes this many entries off, as far as there are any.
    fn shorten(&mut self, n: usize)
        ensures { self.new ≡ with_stack self.old (without n self.old.stack) }
    {
        let gone = n.min(self.known());
        self.entries.truncate(self.entries.len() - gone);
    }

    /// Takes one entry of any type off.
    pub fn pop(&mut self) -> Result<Option<ValType>, TypingFault>
        ensures taken { Obtains result (option_map entry_taken (popped self.old.stack.entries self.old.stack.loose)) }
        ensures stack { OnOk result (option_map entries_left (popped self.old.stack.entries self.old.stack.loose) ≡ Some self.new.stack.entries) }
        ensures rest { self.new ≡ with_stack self.old (record { entries = self.new.stack.entries; loose = self.old.stack.loose }) }
    {
        if self.known() > 0 {
            let entry = self.entries[self.entries.len() - 1];
            self.shorten(1);
            return Ok(entry);
        }
        if self.loose {
            Ok(None)
        } else {
            Err(TypingFault::Invalid)
        }
    }

    /// What follows is never reached.
    pub fn leave_unreachable(&mut self)
        ensures { self.new ≡ with_stack self.old unreachable }
    {
        self.entries.truncate(self.start);
        self.loose = true;
    }

    /// Whether the innermost block holds exactly these types.
    pub fn ends_with(&self, types: &[ValType]) -> bool
        ensures { result ≡ holds_exactly types.now self.now.stack }
    {
        self.has(types) && self.known() <= types.len()
    }

    /// Opens a block on its parameters.
    pub fn enter(&mut self, params: &[ValType], label: &'a [ValType]) -> Result<(), TypingFault>
        ensures { Leaves result self.new (Some (entered self.old params.now label.now self.old.stack)) }
    {
        let open = Label {
            types: label,
            start: self.start,
            loose: self.loose,
        };
        if self.labels.push(open).is_err() {
            return Err(TypingFault::Memory);
        }
        self.start = self.entries.len();
        self.loose = false;
        self.put(params)
    }

    /// Begins the innermost block anew on its parameters.
    pub fn restart(&mut self, params: &[ValType]) -> Result<(), TypingFault>
        ensures stack { Leaves result self.new.stack (Some (holding params.now)) }
        ensures rest { self.new ≡ with_stack self.old self.new.stack }
    {
        self.entries.truncate(self.start);
        self.loose = false;
        self.put(params)
    }

    /// Leaves the innermost block with its results.
    pub fn leave(&mut self, results: &[ValType]) -> Result<(), TypingFault>
        requires { 0 < length self.old.levels }
        ensures { Leaves result self.new (Some (left self.old results.now self.old.levels)) }
    {
        self.entries.truncate(self.start);
        if let Some(outer) = self.labels.pop() {
            self.start = outer.start;
            self.loose = outer.loose;
        }
        self.put(results)
    }

    /// Counts the entries.
    pub fn note(&mut self)
        ensures { self.new ≡ noted self.old }
    {
        self.most = self.most.max(self.entries.len());
    }

    /// What a branch takes.
    pub fn label(&self, k: u32) -> Option<&'a [ValType]>
        ensures { option_map (λ b. b.now) result ≡ slice_get (labels_of self.now.levels) k }
    {
        let count = self.labels.len();
        if (k as usize) < count {
            Some(self.labels[count - 1 - k as usize].types)
        } else {
            None
        }
    }

    /// The greatest number of entries so far.
    pub fn most(&self) -> usize
        ensures { result ≡ self.now.most }
    {
        self.most
    }
}
