// What the program ends with: an outcome, and the exit status of it.
ghost use Rattle.std.specs.Prelude.{◌≡◌, ℕ, None, false, true};
ghost use Rattle.std.specs.Option.{ForSome};
ghost use Rattle.std.specs.FinMap.{get};
ghost use Rattle.std.specs.Process.{exit_status};
ghost use Rattle.host_calls.specs.Embedders.{names_of};
ghost use Rattle.slice_board.specs.Taken.{picks_of};
ghost use Rattle.dyl_front.specs.Lines.{line_of};
ghost use Rattle.dyl_front.specs.Orders.{order_of};
ghost use Rattle.dyl_front.specs.Status.{status_of};
ghost use Rattle.dyl_commands.specs.Due.{DueFor, TellsFor, is_done, Yields, IsComplete};
ghost use Rattle.dyl_commands.specs.Files.{LeavesFor};
ghost use Rattle.dyl_commands.specs.Causes.{Caused, has_inner_memory};
ghost use Rattle.dyl_commands.specs.Counts.{Counts};
ghost use Rattle.dyl_commands.specs.Told.{IsTold, TellsErrors};
ghost use Rattle.dyl_commands.specs.Clauses.{DoesBy};
ghost use Rattle.replay_commands.specs.Written.{WritesBy};

use crate::service::serve;
use dyl_commands::tell;
use dyl_front::{Outcome, status};
use dyl_link::host_table::HostTable;
use slice_exec::Picker;
use spec_hosts::dyl_outside::{Ambient, Files, Sink, Source};
use std::alloc::Global;
use std::process::ExitCode;

/// An outcome with the status to end with.
fn with_status(outcome: Outcome) -> (Outcome, ExitCode)
    ensures same { result.0 ≡ outcome }
    ensures status { exit_status result.1 ≡ status_of outcome }
{
    let code = ExitCode::from(status(&outcome));
    (outcome, code)
}

/// Does what the words ask for, as `serve` does, and gives what came of it with the exit status of that.
pub fn serve_to_end<F: Files, I: Source, O: Sink, E: Sink, A: Ambient>(
    alloc: Global,
    words: &[String],
    files: &mut F,
    input: &mut I,
    output: &mut O,
    errors: &mut E,
    ambient: &mut A,
    host: &HostTable,
    picker: &Picker,
) -> (Outcome, ExitCode)
    ensures status { exit_status result.1 ≡ status_of result.0 }
    ensures due { ForSome (F.seen files.old).told (λ told. (due : Outcome) → DueFor (names_of host.now) (get told) (order_of words.now) due → Yields (order_of words.now) due result.0) }
    ensures tells { ForSome (F.seen files.old).told (λ told. TellsFor (names_of host.now) (get told) (order_of words.now) result.0) }
    ensures files { ForSome (F.seen files.old).told (λ told. LeavesFor (names_of host.now) (order_of words.now) told result.0 (F.seen files.old) (F.seen files.new)) }
    ensures complete { ForSome (F.seen files.old).told (λ told. IsComplete (names_of host.now) (get told) (order_of words.now) result.0 (F.seen files.old) (F.seen files.new) (O.seen output.old).faults (O.seen output.new).faults) }
    ensures caused { Caused (names_of host.now) (order_of words.now) result.0 (F.seen files.old) (F.seen files.new) (O.seen output.old).faults (O.seen output.new).faults }
    ensures inner { has_inner_memory result.0 ≡ false }
    ensures counts { Counts (order_of words.now) result.0 (F.seen files.old) (F.seen files.new) }
    ensures does { DoesBy host.now (picks_of picker.now) (F.seen files.old) (order_of words.now) result.0 (I.seen input.old) (O.seen output.old) (E.seen errors.old) (A.seen ambient.old) (I.seen input.new) (O.seen output.new) (E.seen errors.new) (A.seen ambient.new) }
    ensures writes { WritesBy host.now (F.seen files.old) (order_of words.now) result.0 (F.seen files.new) (I.seen input.old) (O.seen output.old) (E.seen errors.old) (A.seen ambient.old) (I.seen input.new) (O.seen output.new) (E.seen errors.new) (A.seen ambient.new) }
    ensures quiet { is_done result.0 ≡ true → errors.new ≡ errors.old }
{
    let outcome = serve(
        alloc, words, files, input, output, errors, ambient, host, picker,
    );
    with_status(outcome)
}

/// Tells of an outcome, as `tell` does where there are no words to serve, and gives it with its exit status.
pub fn tell_to_end<E: Sink>(alloc: Global, outcome: Outcome, errors: &mut E) -> (Outcome, ExitCode)
    ensures status { exit_status result.1 ≡ status_of result.0 }
    ensures answer { IsTold outcome result.0 }
    ensures told { TellsErrors result.0 (E.seen errors.old) (E.seen errors.new) }
    ensures quiet { line_of result.0 ≡ None → errors.new ≡ errors.old }
{
    let told = tell(alloc, outcome, errors);
    with_status(told)
}
