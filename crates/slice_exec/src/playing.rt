// The turns of a board.
ghost use Rattle.std.specs.Prelude.{◌≡◌, ◌<◌, MatchBool};
ghost use Rattle.std.specs.List.{All};
ghost use Rattle.spec_hosts.specs.Devices.{devices};
ghost use Rattle.spec_boards.specs.BoardRuns.{is_done};
ghost use Rattle.dyl_store.specs.Stores.{set_course};
ghost use Rattle.slice_board.specs.Taken.{place_of, picks_of};
ghost use Rattle.slice_exec.specs.Playing.{written_by, written_in, sets_in, IsSeated, SomeGoes, AllDone, IsReady, RoundGives, IsFresh, HaveHosts, PlayGives};

use crate::answering::{answer, is_full, waits_in_vain};
use crate::tally::Tally;
use dyl_store::Store;
use host_calls::Hosts;
use slice_board::{Board, Stop};
use spec_hosts::dyl_outside::{Ambient, Sink, Source};
use spec_hosts::wasm_form::Memory;
use std::alloc::Global;

/// Whether a program of at most so many steps has ended or has a limit due, where its answers have written so many bytes.
fn is_done(store: &Store, most: u64, written: u128) -> bool
    requires seated { IsSeated most store.now.run }
    requires written { written ≡ written_by store.now.run.answers }
    ensures { result ≡ is_done (set_course store.now.linked) most (place_of store.now.run) }
{
    if store.steps() == most {
        return true;
    }
    if store.has_ended() || store.deep() {
        return true;
    }
    waits_in_vain(store, written)
}

/// Whether some program could go on.
fn some_goes(board: &Board, tally: &Tally, most: u64) -> bool
    requires seated { All (λ s. IsSeated most s.store.run) board.now.seats.items }
    requires written { tally.now.written.items ≡ written_in board.now.seats.items }
    ensures { MatchBool result (SomeGoes most board.now.seats.items) (AllDone most board.now.seats.items) }
{
    for p in 0..board.count() {
        if !is_done(board.store(p), most, tally.written[p as usize]) {
            return true;
        }
    }
    false
}

/// Takes a turn, and answers the call at which it stopped, where a further one is answered.
fn round<I: Source, O: Sink, E: Sink, A: Ambient>(
    alloc: Global,
    board: &mut Board,
    hosts: &[Hosts],
    tally: &mut Tally,
    slice: u32,
    input: &mut I,
    output: &mut O,
    errors: &mut E,
    ambient: &mut A,
) -> Result<(), Memory>
    requires { IsReady slice (picks_of board.old.picker.now) hosts.now board.old.seats.items board.old.turn tally.old (devices (I.seen input.old) (O.seen output.old) (E.seen errors.old) (A.seen ambient.old)) }
    ensures round { RoundGives slice (picks_of board.old.picker.now) hosts.now result board.old.seats.items board.old.turn tally.old board.new.seats.items board.new.turn tally.new (devices (I.seen input.old) (O.seen output.old) (E.seen errors.old) (A.seen ambient.old)) (devices (I.seen input.new) (O.seen output.new) (E.seen errors.new) (A.seen ambient.new)) }
    ensures picker { board.new.picker ≡ board.old.picker }
{
    let turn = board.turn(alloc, slice)?;
    tally.picks.push(turn.program)?;
    let Stop::Waits = turn.stop else {
        return Ok(());
    };
    let p = turn.program;
    if is_full(board.store(p), tally.written[p as usize]) {
        return Ok(());
    }
    answer(
        alloc,
        board,
        p,
        &hosts[p as usize],
        tally,
        input,
        output,
        errors,
        ambient,
    )
}

/// Takes turns until none is left or no program could go on.
pub(crate) fn play<I: Source, O: Sink, E: Sink, A: Ambient>(
    alloc: Global,
    board: &mut Board,
    hosts: &[Hosts],
    tally: &mut Tally,
    most: u64,
    slice: u32,
    turns: u32,
    input: &mut I,
    output: &mut O,
    errors: &mut E,
    ambient: &mut A,
) -> Result<(), Memory>
    requires fresh { IsFresh most board.old.seats.items board.old.turn tally.old }
    requires hosts { HaveHosts hosts.now (sets_in board.old.seats.items) }
    ensures { PlayGives most slice turns (picks_of board.old.picker.now) hosts.now result board.old.seats.items board.new.seats.items tally.new (devices (I.seen input.old) (O.seen output.old) (E.seen errors.old) (A.seen ambient.old)) (devices (I.seen input.new) (O.seen output.new) (E.seen errors.new) (A.seen ambient.new)) }
{
    'turns: while tally.picks.len() < turns as usize {
        if !some_goes(board, tally, most) {
            return Ok(());
        }
        round(
            alloc, board, hosts, tally, slice, input, output, errors, ambient,
        )?;
    }
    Ok(())
}
