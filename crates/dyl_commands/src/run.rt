// Running a set.
ghost use Rattle.std.specs.Prelude.{◌≡◌, ◌≤◌, false, Ok};
ghost use Rattle.host_calls.specs.Embedders.{names_of};
ghost use Rattle.dyl_front.specs.Orders.{IsLinkInRange};
ghost use Rattle.dyl_commands.specs.Due.{is_done};
ghost use Rattle.dyl_commands.specs.Counts.{Counts};
ghost use Rattle.dyl_commands.specs.Served.{Serves, BeginsAsSet, TakesAnswers};
ghost use Rattle.dyl_commands.specs.Clauses.{SetRuns, RunWorksBy};

use crate::exec::guest_arguments;
use crate::sets::linked_set;
use dyl_front::{Order, Outcome};
use dyl_link::dyl_search::SetOptions;
use dyl_link::host_table::HostTable;
use dyl_link::{LinkOptions, Linked};
use spec_hosts::dyl_outside::{Ambient, Files, Sink, Source};
use std::alloc::Global;
use wasm_exec::execute_set;
use wasm_form::{Memory, Text};

/// Runs a linked set.
pub fn run_linked<I: Source, O: Sink, E: Sink, A: Ambient>(
    alloc: Global,
    linked: &Linked,
    steps: u64,
    args: &[Text],
    input: &mut I,
    output: &mut O,
    errors: &mut E,
    ambient: &mut A,
    host: &HostTable,
) -> Outcome
    requires names { linked.now.names ≡ names_of host.now }
    requires steps { steps ≤ 9223372036854775807 }
    ensures taken { TakesAnswers (BeginsAsSet linked.now) result }
    ensures runs { SetRuns host.now linked.now args.now steps result (I.seen input.old) (O.seen output.old) (E.seen errors.old) (A.seen ambient.old) (I.seen input.new) (O.seen output.new) (E.seen errors.new) (A.seen ambient.new) }
{
    let Ok(args) = guest_arguments(alloc, args) else {
        return Outcome::Memory;
    };
    match execute_set(
        alloc, linked, args, steps, host, input, output, errors, ambient,
    ) {
        Ok(ran) => Outcome::Ran(ran),
        Err(Memory) => Outcome::Memory,
    }
}

/// Runs the set that is asked for, for at most so many steps, for a program with these arguments after its name.
pub fn run_main<F: Files, I: Source, O: Sink, E: Sink, A: Ambient>(
    alloc: Global,
    set: &SetOptions,
    link: &LinkOptions,
    steps: u64,
    args: &[Text],
    files: &mut F,
    input: &mut I,
    output: &mut O,
    errors: &mut E,
    ambient: &mut A,
    host: &HostTable,
) -> Outcome
    requires link { IsLinkInRange link.now }
    requires steps { steps ≤ 9223372036854775807 }
    ensures serves { Serves (names_of host.now) (Ok (Order.Run set.now link.now steps args.now)) result (F.seen files.old) (F.seen files.new) (O.seen output.old).faults (O.seen output.new).faults }
    ensures counts { Counts (Ok (Order.Run set.now link.now steps args.now)) result (F.seen files.old) (F.seen files.new) }
    ensures done { is_done result ≡ false }
    ensures works { RunWorksBy host.now (F.seen files.old) set.now link.now steps args.now result (I.seen input.old) (O.seen output.old) (E.seen errors.old) (A.seen ambient.old) (I.seen input.new) (O.seen output.new) (E.seen errors.new) (A.seen ambient.new) }
{
    match linked_set(alloc, set, link, files, host) {
        Ok(linked) => {
            let outcome = run_linked(
                alloc, &linked, steps, args, input, output, errors, ambient, host,
            );
            drop(linked);
            outcome
        }
        Err(outcome) => outcome,
    }
}
