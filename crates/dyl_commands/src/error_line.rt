// The line on the standard error that tells what came of an order.
ghost use Rattle.std.specs.Prelude.{◌≡◌, Some, None, IsSome};
ghost use Rattle.dyl_front.specs.Lines.{line_of};
ghost use Rattle.dyl_commands.specs.Told.{IsTold, TellsErrors};

use dyl_front::{Outcome, is_silent, line};
use spec_hosts::dyl_outside::{IoFault, Sink};
use std::alloc::Global;
use wasm_form::Memory;

/// Puts the line of Memory, which is made without any.
fn tell_memory<E: Sink>(alloc: Global, errors: &mut E) -> Outcome
    ensures answer { result ≡ Outcome.Memory }
    ensures told { TellsErrors Outcome.Memory (E.seen errors.old) (E.seen errors.new) }
{
    match errors.put(alloc, b"wdyl: out of memory\n") {
        Ok(()) | Err(IoFault::Failed | IoFault::Memory) => Outcome::Memory,
    }
}

/// Puts the line of an outcome.
fn tell_line<E: Sink>(alloc: Global, outcome: Outcome, line: &[u8], errors: &mut E) -> Outcome
    requires { line_of outcome ≡ Some line.now }
    ensures answer { IsTold outcome result }
    ensures told { TellsErrors result (E.seen errors.old) (E.seen errors.new) }
{
    match errors.put(alloc, line) {
        Ok(()) => outcome,
        Err(IoFault::Failed) => outcome,
        Err(IoFault::Memory) => {
            drop(outcome);
            tell_memory(alloc, errors)
        }
    }
}

/// Makes the line of an outcome, and puts it.
fn tell_other<E: Sink>(alloc: Global, outcome: Outcome, errors: &mut E) -> Outcome
    requires { IsSome (line_of outcome) }
    ensures answer { IsTold outcome result }
    ensures told { TellsErrors result (E.seen errors.old) (E.seen errors.new) }
{
    match line(alloc, &outcome) {
        Ok(line) => tell_line(alloc, outcome, &line, errors),
        Err(Memory) => {
            drop(outcome);
            tell_memory(alloc, errors)
        }
    }
}

/// Tells of an outcome by its line, if it has one, and answers it; or Memory, where none could be had for that.
pub fn tell<E: Sink>(alloc: Global, outcome: Outcome, errors: &mut E) -> Outcome
    ensures answer { IsTold outcome result }
    ensures told { TellsErrors result (E.seen errors.old) (E.seen errors.new) }
    ensures quiet { line_of result ≡ None → errors.new ≡ errors.old }
{
    if is_silent(&outcome) {
        return outcome;
    }
    match outcome {
        Outcome::Memory => tell_memory(alloc, errors),
        other => tell_other(alloc, other, errors),
    }
}
