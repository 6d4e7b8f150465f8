// What came of the programs of a board.
ghost use Rattle.std.specs.Prelude.{◌≡◌, [], IfOk, OnOk, true};
ghost use Rattle.std.specs.List.{All, AllZip};
ghost use Rattle.spec_boards.specs.BoardRuns.{EndsBy};
ghost use Rattle.dyl_store.specs.Stores.{set_course};
ghost use Rattle.slice_board.specs.Taken.{place_of};
ghost use Rattle.slice_exec.specs.Playing.{written_by, written_in, IsSeated, IsRan};

use crate::answering::waits_in_vain;
use crate::tally::Tally;
use dyl_store::Store;
use run_loaded::end_by;
use slice_board::{Board, Seat};
use spec_boards::BoardRan;
use spec_hosts::wasm_form::{List, Memory};
use spec_hosts::{Ran, RunEnd};
use std::alloc::Global;

/// How a program of at most so many steps ended, where its answers have written so many bytes: by itself, by a limit of its own, or else by
/// that of the turns.
fn end_of(store: &Store, most: u64, written: u128) -> RunEnd
    requires seated { IsSeated most store.now.run }
    requires written { written ≡ written_by store.now.run.answers }
    ensures { EndsBy true (set_course store.now.linked) most (place_of store.now.run) result }
{
    if let Some(end) = end_by(store.state()) {
        return end;
    }
    if store.steps() == most {
        return RunEnd::StepLimit;
    }
    if store.deep() {
        return RunEnd::DepthLimit;
    }
    if waits_in_vain(store, written) {
        return RunEnd::HostCallLimit;
    }
    RunEnd::TurnLimit
}

/// What came of a program, whose answers have written so many bytes.
fn ran_of(seat: Seat, written: u128) -> Ran
    requires seated { IsSeated seat.most seat.store.run }
    requires written { written ≡ written_by seat.store.run.answers }
    ensures { IsRan seat.entry result }
{
    let Seat { store, most } = seat;
    let end = end_of(&store, most, written);
    let steps = store.steps();
    Ran {
        end,
        steps,
        answers: store.into_answers(),
    }
}

/// What came of each program, in order.
fn end_all(seats: &mut Vec<Seat>, written: &[u128], runs: &mut Vec<Ran>) -> Result<(), Memory>
    requires seated { All (λ s. IsSeated s.most s.store.run) seats.old.items }
    requires written { written.now ≡ written_in seats.old.items }
    requires none { runs.old.items ≡ [] }
    ensures { OnOk result (AllZip IsRan seats.old.items runs.new.items) }
{
    for bytes in written {
        let seat = seats.remove(0);
        runs.push(ran_of(seat, *bytes))?;
    }
    Ok(())
}

/// What came of a board.
pub(crate) fn finish(alloc: Global, board: Board, tally: Tally) -> Result<BoardRan, Memory>
    requires seated { All (λ s. IsSeated s.most s.store.run) board.seats.items }
    requires written { tally.written.items ≡ written_in board.seats.items }
    ensures runs { IfOk result (λ r. AllZip IsRan board.entry.seats.items r.runs) }
    ensures picks { IfOk result (λ r. r.picks ≡ tally.picks.items) }
{
    let Tally { written, picks } = tally;
    let mut seats = board.into_seats();
    let mut runs = Vec::new(alloc);
    let ended = end_all(&mut seats, &written, &mut runs);
    drop(seats);
    drop(written);
    match ended {
        Ok(()) => Ok(BoardRan {
            runs: List::of(runs),
            picks: List::of(picks),
        }),
        Err(memory) => {
            drop(runs);
            drop(picks);
            Err(memory)
        }
    }
}
