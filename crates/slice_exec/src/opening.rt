// A board before its first turn.
ghost use Rattle.std.specs.Prelude.{◌≡◌, ◌<◌, ◌≤◌, [], ◌∷◌, ◌++◌, length, map, IfOk, OnOk};
ghost use Rattle.slice_exec.specs.Playing.{new_seat};

use dyl_link::Linked;
use dyl_store::Store;
use slice_board::{Board, BoardFault};
use spec_hosts::wasm_form::{List, Memory, Text};
use std::alloc::Global;

/// The arguments of a program with this one.
pub(crate) fn one_argument(alloc: Global, name: &str) -> Result<List<Text>, Memory>
    ensures { IfOk result (λ texts. texts ≡ name.now ∷ []) }
{
    let mut texts = Vec::new(alloc);
    texts.push(Text::copied(alloc, name)?)?;
    Ok(List::of(texts))
}

/// Puts a set onto a board that has room, of at most so many steps.
fn seat_one<'m>(
    alloc: Global,
    linked: &'m Linked,
    most: u64,
    board: &mut Board<'m>,
) -> Result<(), Memory>
    requires { length board.old.seats.items < 64 }
    ensures seated { OnOk result (board.new.seats.items ≡ board.old.seats.items ++ new_seat most linked.now ∷ []) }
    ensures turn { board.new.turn ≡ board.old.turn }
    ensures picker { board.new.picker ≡ board.old.picker }
{
    let store = Store::load(alloc, linked)?;
    match board.add(alloc, store, most) {
        Ok(_number) => Ok(()),
        Err(refused) => {
            let fault = refused.fault;
            drop(refused);
            match fault {
                BoardFault::Full => unreachable!(),
                BoardFault::Memory => Err(Memory),
            }
        }
    }
}

/// Puts each of 64 sets at most onto a board, in order. No answer has written anything.
pub(crate) fn seat_all<'m>(
    alloc: Global,
    sets: &'m [Linked],
    most: u64,
    board: &mut Board<'m>,
    written: &mut Vec<u128>,
) -> Result<(), Memory>
    requires few { length sets.now ≤ 64 }
    requires none { board.old.seats.items ≡ [] }
    requires nothing { written.old.items ≡ [] }
    ensures seated { OnOk result (board.new.seats.items ≡ map (new_seat most) sets.now) }
    ensures written { OnOk result (written.new.items ≡ map (λ k. 0) sets.now) }
    ensures turn { board.new.turn ≡ board.old.turn }
    ensures picker { board.new.picker ≡ board.old.picker }
{
    for linked in sets {
        seat_one(alloc, linked, most, board)?;
        written.push(0)?;
    }
    Ok(())
}
