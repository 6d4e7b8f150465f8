// Commands over what picks the programs of a board.
ghost use Rattle.std.specs.Prelude.{◌<◌, ◌≡◌, ◌%◌};

use crate::facts::Facts;
use crate::row::Row;
use crate::world::perform_over;
use dyl_app::{Pick, Picker};
use spec_binary::wasm_form::Memory;
use std::alloc::Global;

/// Each program in its turn.
fn in_turns(turn: u64, count: u64) -> u64
    requires { 0 < count }
    ensures below { result < count }
    ensures in_turn { result ≡ turn % count }
{
    turn % count
}

/// The first program at each turn.
fn first(_turn: u64, count: u64) -> u64
    requires { 0 < count }
    ensures { result ≡ 0 }
{
    0
}

/// Performs a command of a row, with a picker that takes the programs of a board in turns.
fn perform_in_turns(
    alloc: Global,
    words: &[String],
    row: &mut Row,
    came: &mut Facts,
) -> Result<(), Memory> {
    let pick: Pick = Box::new(alloc, in_turns)?;
    let picker = Picker::new(pick);
    let performed = perform_over(alloc, words, &picker, row, came);
    drop(picker);
    performed
}

/// The same with a picker that always takes the first program.
fn perform_first(
    alloc: Global,
    words: &[String],
    row: &mut Row,
    came: &mut Facts,
) -> Result<(), Memory> {
    let pick: Pick = Box::new(alloc, first)?;
    let picker = Picker::new(pick);
    let performed = perform_over(alloc, words, &picker, row, came);
    drop(picker);
    performed
}

/// Performs a command of a row with the row's picker, and notes what came of it.
pub fn perform(
    alloc: Global,
    words: &[String],
    row: &mut Row,
    came: &mut Facts,
) -> Result<(), Memory> {
    match row.picker {
        "zero" => perform_first(alloc, words, row, came),
        _ => perform_in_turns(alloc, words, row, came),
    }
}
