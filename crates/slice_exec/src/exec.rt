// The run of a board.
ghost use Rattle.std.specs.Prelude.{◌≡◌, ◌<◌, ◌≤◌, ◌∷◌, [], length};
ghost use Rattle.std.specs.List.{All};
ghost use Rattle.spec_hosts.specs.Devices.{devices, KeepsFronts};
ghost use Rattle.host_calls.specs.Embedders.{names_of, embedder_of};
ghost use Rattle.dyl_link.specs.host_table.Names.{HaveIntegers};
ghost use Rattle.slice_board.specs.Taken.{picks_of};
ghost use Rattle.slice_exec.specs.Executed.{ExecutesBoard};
ghost use Rattle.slice_exec.specs.Playing.{sets_in, IsUnused, IsFresh, RunsBoard};

use crate::ending::finish;
use crate::opening::{one_argument, seat_all};
use crate::playing::play;
use crate::tally::Tally;
use dyl_link::Linked;
use dyl_link::host_table::HostTable;
use host_calls::Hosts;
use host_wasi::Wasi;
use slice_board::{Board, Picker};
use spec_boards::BoardRan;
use spec_hosts::dyl_outside::{Ambient, Sink, Source};
use spec_hosts::wasm_form::Memory;
use std::alloc::Global;

/// Runs linked sets in turns of at most `slice` steps, each set for at most `most` steps, until each has ended or has a limit due, or `turns`
/// turns were taken. Each is a program with the one argument `name`, its own. The host call at which a turn stopped is answered before the next
/// turn, as for one set, unless no further one is answered for that program. The sets were linked over the names that `host_names` gives for
/// the table. `Memory` where no memory could be had.
pub fn execute_board<I: Source, O: Sink, E: Sink, A: Ambient>(
    alloc: Global,
    sets: &[Linked],
    name: &str,
    most: u64,
    slice: u32,
    turns: u32,
    picker: &Picker,
    table: &HostTable,
    input: &mut I,
    output: &mut O,
    errors: &mut E,
    ambient: &mut A,
) -> Result<BoardRan, Memory>
    requires some { 0 < length sets.now }
    requires few { length sets.now ≤ 64 }
    requires most { most < 18446744073709551615 }
    requires names { All (λ L. L.names ≡ names_of table.now) sets.now }
    ensures executes { ExecutesBoard sets.now (embedder_of (name.now ∷ []) table.now) most slice turns (picks_of picker.now) result (devices (I.seen input.old) (O.seen output.old) (E.seen errors.old) (A.seen ambient.old)) (devices (I.seen input.new) (O.seen output.new) (E.seen errors.new) (A.seen ambient.new)) }
    ensures fronts { KeepsFronts (devices (I.seen input.old) (O.seen output.old) (E.seen errors.old) (A.seen ambient.old)) (devices (I.seen input.new) (O.seen output.new) (E.seen errors.new) (A.seen ambient.new)) }
{
    sets[0].hosts_have_integers();
    let mut board = Board::new(alloc, picker);
    let mut tally = Tally {
        written: Vec::new(alloc),
        picks: Vec::new(alloc),
    };
    let played = run_board(
        alloc, sets, name, most, slice, turns, table, &mut board, &mut tally, input, output,
        errors, ambient,
    );
    match played {
        Ok(()) => finish(alloc, board, tally),
        Err(memory) => {
            drop(board);
            drop(tally);
            Err(memory)
        }
    }
}

/// The same over what a caller owns: the sets take their places, what answers their calls is found, and turns are taken.
fn run_board<'m, I: Source, O: Sink, E: Sink, A: Ambient>(
    alloc: Global,
    sets: &'m [Linked],
    name: &str,
    most: u64,
    slice: u32,
    turns: u32,
    table: &'m HostTable,
    board: &mut Board<'m>,
    tally: &mut Tally,
    input: &mut I,
    output: &mut O,
    errors: &mut E,
    ambient: &mut A,
) -> Result<(), Memory>
    requires few { length sets.now ≤ 64 }
    requires none { IsUnused board.old.seats.items board.old.turn tally.old }
    requires names { All (λ L. L.names ≡ names_of table.now) sets.now }
    requires integers { HaveIntegers (names_of table.now) }
    ensures { RunsBoard sets.now (embedder_of (name.now ∷ []) table.now) most slice turns (picks_of board.old.picker.now) result board.new.seats.items tally.new (devices (I.seen input.old) (O.seen output.old) (E.seen errors.old) (A.seen ambient.old)) (devices (I.seen input.new) (O.seen output.new) (E.seen errors.new) (A.seen ambient.new)) }
{
    seat_all(alloc, sets, most, board, &mut tally.written)?;
    play_seated(
        alloc, sets, name, most, slice, turns, table, board, tally, input, output, errors, ambient,
    )
}

/// The same of sets that have taken their places: what answers their calls is found, and turns are taken.
fn play_seated<I: Source, O: Sink, E: Sink, A: Ambient>(
    alloc: Global,
    sets: &[Linked],
    name: &str,
    most: u64,
    slice: u32,
    turns: u32,
    table: &HostTable,
    board: &mut Board,
    tally: &mut Tally,
    input: &mut I,
    output: &mut O,
    errors: &mut E,
    ambient: &mut A,
) -> Result<(), Memory>
    requires fresh { IsFresh most board.old.seats.items board.old.turn tally.old }
    requires sets { sets_in board.old.seats.items ≡ sets.now }
    requires names { All (λ L. L.names ≡ names_of table.now) sets.now }
    requires integers { HaveIntegers (names_of table.now) }
    ensures { RunsBoard sets.now (embedder_of (name.now ∷ []) table.now) most slice turns (picks_of board.old.picker.now) result board.new.seats.items tally.new (devices (I.seen input.old) (O.seen output.old) (E.seen errors.old) (A.seen ambient.old)) (devices (I.seen input.new) (O.seen output.new) (E.seen errors.new) (A.seen ambient.new)) }
{
    let mut hosts = Vec::new(alloc);
    for linked in sets {
        let Ok(args) = one_argument(alloc, name) else {
            drop(hosts);
            return Err(Memory);
        };
        let Ok(bound) = Hosts::bind(alloc, Wasi::new(alloc, args), table, linked.hosts()) else {
            drop(hosts);
            return Err(Memory);
        };
        if let Err(refused) = hosts.push(bound) {
            drop(refused);
            drop(hosts);
            return Err(Memory);
        }
    }
    let played = play(
        alloc, board, &hosts, tally, most, slice, turns, input, output, errors, ambient,
    );
    drop(hosts);
    played
}
