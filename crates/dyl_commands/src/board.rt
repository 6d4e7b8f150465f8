// Running several sets in turns.
ghost use Rattle.std.specs.Prelude.{◌≡◌, ◌<◌, ◌≤◌, length, false, Ok};
ghost use Rattle.std.specs.List.{All};
ghost use Rattle.spec_loading.specs.spec_linking.LinkedSets.{LinkedSet};
ghost use Rattle.host_calls.specs.Embedders.{names_of};
ghost use Rattle.slice_board.specs.Taken.{picks_of};
ghost use Rattle.dyl_front.specs.Orders.{IsLinkInRange};
ghost use Rattle.dyl_commands.specs.Due.{is_done};
ghost use Rattle.dyl_commands.specs.Counts.{Counts};
ghost use Rattle.dyl_commands.specs.Served.{Serves};
ghost use Rattle.dyl_commands.specs.Clauses.{SetsRun, BoardWorksBy};

use crate::sets::linked_sets;
use dyl_front::{Order, Outcome};
use dyl_link::host_table::HostTable;
use dyl_link::{LinkOptions, Linked};
use slice_exec::{Picker, execute_board};
use spec_hosts::dyl_outside::{Ambient, Files, Sink, Source};
use std::alloc::Global;
use wasm_form::{Memory, Text};

/// Runs linked sets in turns, each a program whose one argument is its name, `program`.
fn run_in_turns<I: Source, O: Sink, E: Sink, A: Ambient>(
    alloc: Global,
    sets: &[Linked],
    steps: u64,
    slice: u32,
    turns: u32,
    input: &mut I,
    output: &mut O,
    errors: &mut E,
    ambient: &mut A,
    host: &HostTable,
    picker: &Picker,
) -> Outcome
    requires some { 0 < length sets.now }
    requires few { length sets.now ≤ 64 }
    requires names { All (λ (L : LinkedSet). L.names ≡ names_of host.now) sets.now }
    requires steps { steps ≤ 9223372036854775807 }
    ensures { SetsRun host.now (picks_of picker.now) sets.now steps slice turns result (I.seen input.old) (O.seen output.old) (E.seen errors.old) (A.seen ambient.old) (I.seen input.new) (O.seen output.new) (E.seen errors.new) (A.seen ambient.new) }
{
    match execute_board(
        alloc, sets, "program", steps, slice, turns, picker, host, input, output, errors, ambient,
    ) {
        Ok(ran) => Outcome::Board(ran),
        Err(Memory) => Outcome::Memory,
    }
}

/// Runs the sets of main modules in turns of at most `slice` steps, each set for at most so many steps, for at most so many turns. Each is a
/// program without arguments after its name.
pub fn board_main<F: Files, I: Source, O: Sink, E: Sink, A: Ambient>(
    alloc: Global,
    mains: &[Text],
    link: &LinkOptions,
    steps: u64,
    slice: u32,
    turns: u32,
    files: &mut F,
    input: &mut I,
    output: &mut O,
    errors: &mut E,
    ambient: &mut A,
    host: &HostTable,
    picker: &Picker,
) -> Outcome
    requires link { IsLinkInRange link.now }
    requires steps { steps ≤ 9223372036854775807 }
    requires some { 0 < length mains.now }
    requires few { length mains.now ≤ 64 }
    ensures serves { Serves (names_of host.now) (Ok (Order.Board mains.now link.now steps slice turns)) result (F.seen files.old) (F.seen files.new) (O.seen output.old).faults (O.seen output.new).faults }
    ensures counts { Counts (Ok (Order.Board mains.now link.now steps slice turns)) result (F.seen files.old) (F.seen files.new) }
    ensures done { is_done result ≡ false }
    ensures works { BoardWorksBy host.now (picks_of picker.now) (F.seen files.old) mains.now link.now steps slice turns result (I.seen input.old) (O.seen output.old) (E.seen errors.old) (A.seen ambient.old) (I.seen input.new) (O.seen output.new) (E.seen errors.new) (A.seen ambient.new) }
{
    match linked_sets(alloc, mains, link, files, host) {
        Ok(sets) => {
            let outcome = run_in_turns(
                alloc,
                sets.items(),
                steps,
                slice,
                turns,
                input,
                output,
                errors,
                ambient,
                host,
                picker,
            );
            drop(sets);
            outcome
        }
        Err(outcome) => outcome,
    }
}
