// The call that does all that the program does.
ghost use Rattle.std.specs.Prelude.{◌≡◌, ◌<◌, ◌≤◌, ℕ, [], length, true, false, Ok};
ghost use Rattle.std.specs.Option.{ForSome};
ghost use Rattle.std.specs.FinMap.{get};
ghost use Rattle.spec_hosts.specs.dyl_outside.Files.{FilesState};
ghost use Rattle.host_calls.specs.Embedders.{names_of, embedder_of};
ghost use Rattle.dyl_link.specs.dyl_search.Gathers.{options_of};
ghost use Rattle.dyl_link.specs.Sets as links;
ghost use Rattle.slice_board.specs.Taken.{picks_of};
ghost use Rattle.dyl_front.specs.Orders.{order_of, IsLinkInRange, IsInRange};
ghost use Rattle.dyl_commands.specs.Due.{DueFor, TellsFor, is_done, Yields, IsComplete};
ghost use Rattle.dyl_commands.specs.Files.{LeavesFor};
ghost use Rattle.dyl_commands.specs.Causes.{Caused, has_inner_memory};
ghost use Rattle.dyl_commands.specs.Counts.{Counts};
ghost use Rattle.dyl_commands.specs.Told.{TellsErrors};
ghost use Rattle.dyl_commands.specs.Served.{Serves};
ghost use Rattle.dyl_commands.specs.Runs.{guest_arguments, PlanWorks, GenWorks};
ghost use Rattle.dyl_commands.specs.Clauses.{DoesBy, RunDoes, ExecDoes, TraceDoes, BoardDoes};
ghost use Rattle.replay_commands.specs.Written.{WritesBy};

use dyl_commands::{
    board_main, exec_file, gen_main, merge_main, plan_main, run_main, snap_main, tell,
};
use dyl_front::{Order, Outcome, WordFault, read_words};
use dyl_gen::generated_set_links;
use dyl_link::LinkOptions;
use dyl_link::dyl_search::SetOptions;
use dyl_link::dyl_section::one_record_answer;
use dyl_link::host_table::HostTable;
use replay_check::runs_agree_up_to_one_call;
use replay_commands::{replay_main, trace_main};
use slice_exec::Picker;
use snap_set::first_states_are_one;
use spec_hosts::dyl_outside::{Ambient, Files, Sink, Source};
use spec_linking::one_gathered;
use spec_merging::wasm_form::Text;
use spec_reading::reading_answers;
use spec_traces::texts_are_of_one_trace;
use std::alloc::Global;

/// Merges a set, and tells what came of it.
fn perform_merge<F: Files, E: Sink>(
    alloc: Global,
    set: &SetOptions,
    link: &LinkOptions,
    out: &str,
    files: &mut F,
    errors: &mut E,
    host: &HostTable,
) -> Outcome
    requires { IsLinkInRange link.now }
    ensures serves { (before now : ℕ) → Serves (names_of host.now) (Ok (Order.Merge set.now link.now out.now)) result (F.seen files.old) (F.seen files.new) before now }
    ensures counts { Counts (Ok (Order.Merge set.now link.now out.now)) result (F.seen files.old) (F.seen files.new) }
    ensures told { TellsErrors result (E.seen errors.old) (E.seen errors.new) }
    ensures quiet { is_done result ≡ true → errors.new ≡ errors.old }
{
    let merged = merge_main(alloc, set, link, out, files, host);
    tell(alloc, merged, errors)
}

/// Lists a set, and tells what came of it.
fn perform_plan<F: Files, O: Sink, E: Sink>(
    alloc: Global,
    set: &SetOptions,
    link: &LinkOptions,
    files: &mut F,
    output: &mut O,
    errors: &mut E,
    host: &HostTable,
) -> Outcome
    requires { IsLinkInRange link.now }
    ensures serves { Serves (names_of host.now) (Ok (Order.Plan set.now link.now)) result (F.seen files.old) (F.seen files.new) (O.seen output.old).faults (O.seen output.new).faults }
    ensures counts { Counts (Ok (Order.Plan set.now link.now)) result (F.seen files.old) (F.seen files.new) }
    ensures works { PlanWorks (F.seen files.old).told (names_of host.now) (options_of set.now) (links.options_of link.now) result (O.seen output.old) (O.seen output.new) }
    ensures told { TellsErrors result (E.seen errors.old) (E.seen errors.new) }
    ensures quiet { is_done result ≡ true → errors.new ≡ errors.old }
{
    let listed = plan_main(alloc, set, link, files, output, host);
    tell(alloc, listed, errors)
}

/// Runs a set, and tells what came of it.
fn perform_run<F: Files, I: Source, O: Sink, E: Sink, A: Ambient>(
    alloc: Global,
    set: &SetOptions,
    link: &LinkOptions,
    steps: u64,
    args: &[Text],
    files: &mut F,
    input: &mut I,
    output: &mut O,
    errors: &mut E,
    ambient: &mut A,
    host: &HostTable,
) -> Outcome
    requires link { IsLinkInRange link.now }
    requires steps { steps ≤ 9223372036854775807 }
    ensures serves { Serves (names_of host.now) (Ok (Order.Run set.now link.now steps args.now)) result (F.seen files.old) (F.seen files.new) (O.seen output.old).faults (O.seen output.new).faults }
    ensures counts { Counts (Ok (Order.Run set.now link.now steps args.now)) result (F.seen files.old) (F.seen files.new) }
    ensures does { RunDoes host.now (F.seen files.old) set.now link.now steps args.now result (I.seen input.old) (O.seen output.old) (E.seen errors.old) (A.seen ambient.old) (I.seen input.new) (O.seen output.new) (E.seen errors.new) (A.seen ambient.new) }
    ensures quiet { is_done result ≡ true → errors.new ≡ errors.old }
{
    let ran = run_main(
        alloc, set, link, steps, args, files, input, output, errors, ambient, host,
    );
    tell(alloc, ran, errors)
}

/// Runs a module, and tells what came of it.
fn perform_exec<F: Files, I: Source, O: Sink, E: Sink, A: Ambient>(
    alloc: Global,
    file: &str,
    steps: u64,
    args: &[Text],
    files: &mut F,
    input: &mut I,
    output: &mut O,
    errors: &mut E,
    ambient: &mut A,
    host: &HostTable,
) -> Outcome
    requires { steps ≤ 9223372036854775807 }
    ensures serves { Serves (names_of host.now) (Ok (Order.Exec file.now steps args.now)) result (F.seen files.old) (F.seen files.new) (O.seen output.old).faults (O.seen output.new).faults }
    ensures counts { Counts (Ok (Order.Exec file.now steps args.now)) result (F.seen files.old) (F.seen files.new) }
    ensures does { ExecDoes host.now (F.seen files.old) file.now steps args.now result (I.seen input.old) (O.seen output.old) (E.seen errors.old) (A.seen ambient.old) (I.seen input.new) (O.seen output.new) (E.seen errors.new) (A.seen ambient.new) }
    ensures quiet { is_done result ≡ true → errors.new ≡ errors.old }
{
    let executed = exec_file(
        alloc, file, steps, args, files, input, output, errors, ambient, host,
    );
    tell(alloc, executed, errors)
}

/// Makes a set and runs it loaded and merged, and tells what came of it.
fn perform_gen<O: Sink, E: Sink>(
    alloc: Global,
    n: u32,
    pages: u32,
    steps: u64,
    output: &mut O,
    errors: &mut E,
    host: &HostTable,
) -> Outcome
    requires some { 1 ≤ pages }
    requires few { pages ≤ 16384 }
    requires steps { steps ≤ 9223372036854775807 }
    ensures serves { (files : FilesState) → Serves (names_of host.now) (Ok (Order.Gen n pages steps)) result files files (O.seen output.old).faults (O.seen output.new).faults }
    ensures works { GenWorks (embedder_of (guest_arguments []) host.now) n pages steps result (O.seen output.old) (O.seen output.new) }
    ensures told { TellsErrors result (E.seen errors.old) (E.seen errors.new) }
    ensures quiet { is_done result ≡ true → errors.new ≡ errors.old }
{
    let made = gen_main(alloc, n, pages, steps, output, host);
    tell(alloc, made, errors)
}

/// Runs a set or a module, writes the trace of the run, and tells what came of it.
fn perform_trace<F: Files, I: Source, O: Sink, E: Sink, A: Ambient>(
    alloc: Global,
    one: bool,
    set: &SetOptions,
    link: &LinkOptions,
    steps: u64,
    out: &str,
    args: &[Text],
    files: &mut F,
    input: &mut I,
    output: &mut O,
    errors: &mut E,
    ambient: &mut A,
    host: &HostTable,
) -> Outcome
    requires link { IsLinkInRange link.now }
    requires steps { steps ≤ 9223372036854775807 }
    ensures serves { Serves (names_of host.now) (Ok (Order.Trace one set.now link.now steps out.now args.now)) result (F.seen files.old) (F.seen files.new) (O.seen output.old).faults (O.seen output.new).faults }
    ensures counts { Counts (Ok (Order.Trace one set.now link.now steps out.now args.now)) result (F.seen files.old) (F.seen files.new) }
    ensures does { TraceDoes host.now (F.seen files.old) one set.now link.now steps out.now args.now result (I.seen input.old) (O.seen output.old) (E.seen errors.old) (A.seen ambient.old) (I.seen input.new) (O.seen output.new) (E.seen errors.new) (A.seen ambient.new) }
    ensures writes { WritesBy host.now (F.seen files.old) (Ok (Order.Trace one set.now link.now steps out.now args.now)) result (F.seen files.new) (I.seen input.old) (O.seen output.old) (E.seen errors.old) (A.seen ambient.old) (I.seen input.new) (O.seen output.new) (E.seen errors.new) (A.seen ambient.new) }
    ensures quiet { is_done result ≡ true → errors.new ≡ errors.old }
{
    let traced = trace_main(
        alloc, one, set, link, steps, out, args, files, input, output, errors, ambient, host,
    );
    tell(alloc, traced, errors)
}

/// Checks that a file is the trace of a run of a set or a module, and tells what came of it.
fn perform_replay<F: Files, E: Sink>(
    alloc: Global,
    one: bool,
    trace: &str,
    set: &SetOptions,
    link: &LinkOptions,
    steps: u64,
    files: &mut F,
    errors: &mut E,
    host: &HostTable,
) -> Outcome
    requires { IsLinkInRange link.now }
    ensures serves { (before now : ℕ) → Serves (names_of host.now) (Ok (Order.Replay one trace.now set.now link.now steps)) result (F.seen files.old) (F.seen files.new) before now }
    ensures counts { Counts (Ok (Order.Replay one trace.now set.now link.now steps)) result (F.seen files.old) (F.seen files.new) }
    ensures told { TellsErrors result (E.seen errors.old) (E.seen errors.new) }
    ensures quiet { is_done result ≡ true → errors.new ≡ errors.old }
{
    let replayed = replay_main(alloc, one, trace, set, link, steps, files, host);
    tell(alloc, replayed, errors)
}

/// Writes the snapshot of a set after its start-up, and tells what came of it.
fn perform_snap<F: Files, E: Sink>(
    alloc: Global,
    set: &SetOptions,
    link: &LinkOptions,
    steps: u64,
    out: &str,
    files: &mut F,
    errors: &mut E,
    host: &HostTable,
) -> Outcome
    requires link { IsLinkInRange link.now }
    requires steps { steps ≤ 9223372036854775807 }
    ensures serves { (before now : ℕ) → Serves (names_of host.now) (Ok (Order.Snap set.now link.now steps out.now)) result (F.seen files.old) (F.seen files.new) before now }
    ensures counts { Counts (Ok (Order.Snap set.now link.now steps out.now)) result (F.seen files.old) (F.seen files.new) }
    ensures told { TellsErrors result (E.seen errors.old) (E.seen errors.new) }
    ensures quiet { is_done result ≡ true → errors.new ≡ errors.old }
{
    let snapped = snap_main(alloc, set, link, steps, out, files, host);
    tell(alloc, snapped, errors)
}

/// Runs several sets in turns, and tells what came of them.
fn perform_board<F: Files, I: Source, O: Sink, E: Sink, A: Ambient>(
    alloc: Global,
    mains: &[Text],
    link: &LinkOptions,
    steps: u64,
    slice: u32,
    turns: u32,
    files: &mut F,
    input: &mut I,
    output: &mut O,
    errors: &mut E,
    ambient: &mut A,
    host: &HostTable,
    picker: &Picker,
) -> Outcome
    requires link { IsLinkInRange link.now }
    requires steps { steps ≤ 9223372036854775807 }
    requires some { 0 < length mains.now }
    requires few { length mains.now ≤ 64 }
    ensures serves { Serves (names_of host.now) (Ok (Order.Board mains.now link.now steps slice turns)) result (F.seen files.old) (F.seen files.new) (O.seen output.old).faults (O.seen output.new).faults }
    ensures counts { Counts (Ok (Order.Board mains.now link.now steps slice turns)) result (F.seen files.old) (F.seen files.new) }
    ensures does { BoardDoes host.now (picks_of picker.now) (F.seen files.old) mains.now link.now steps slice turns result (I.seen input.old) (O.seen output.old) (E.seen errors.old) (A.seen ambient.old) (I.seen input.new) (O.seen output.new) (E.seen errors.new) (A.seen ambient.new) }
    ensures quiet { is_done result ≡ true → errors.new ≡ errors.old }
{
    let board = board_main(
        alloc, mains, link, steps, slice, turns, files, input, output, errors, ambient, host,
        picker,
    );
    tell(alloc, board, errors)
}

/// Does what an order asks for, and answers what came of it, as `serve` does for words.
pub fn perform<F: Files, I: Source, O: Sink, E: Sink, A: Ambient>(
    alloc: Global,
    order: &Order,
    files: &mut F,
    input: &mut I,
    output: &mut O,
    errors: &mut E,
    ambient: &mut A,
    host: &HostTable,
    picker: &Picker,
) -> Outcome
    requires { IsInRange order.now }
    ensures due { ForSome (F.seen files.old).told (λ told. (due : Outcome) → DueFor (names_of host.now) (get told) (Ok order.now) due → Yields (Ok order.now) due result) }
    ensures tells { ForSome (F.seen files.old).told (λ told. TellsFor (names_of host.now) (get told) (Ok order.now) result) }
    ensures files { ForSome (F.seen files.old).told (λ told. LeavesFor (names_of host.now) (Ok order.now) told result (F.seen files.old) (F.seen files.new)) }
    ensures complete { ForSome (F.seen files.old).told (λ told. IsComplete (names_of host.now) (get told) (Ok order.now) result (F.seen files.old) (F.seen files.new) (O.seen output.old).faults (O.seen output.new).faults) }
    ensures caused { Caused (names_of host.now) (Ok order.now) result (F.seen files.old) (F.seen files.new) (O.seen output.old).faults (O.seen output.new).faults }
    ensures inner { has_inner_memory result ≡ false }
    ensures counts { Counts (Ok order.now) result (F.seen files.old) (F.seen files.new) }
    ensures does { DoesBy host.now (picks_of picker.now) (F.seen files.old) (Ok order.now) result (I.seen input.old) (O.seen output.old) (E.seen errors.old) (A.seen ambient.old) (I.seen input.new) (O.seen output.new) (E.seen errors.new) (A.seen ambient.new) }
    ensures writes { WritesBy host.now (F.seen files.old) (Ok order.now) result (F.seen files.new) (I.seen input.old) (O.seen output.old) (E.seen errors.old) (A.seen ambient.old) (I.seen input.new) (O.seen output.new) (E.seen errors.new) (A.seen ambient.new) }
    ensures quiet { is_done result ≡ true → errors.new ≡ errors.old }
{
    // Laws: these calls do nothing, and what they say is known to the proof from here on.
    reading_answers();
    one_record_answer();
    one_gathered();
    generated_set_links();
    texts_are_of_one_trace();
    runs_agree_up_to_one_call();
    first_states_are_one();
    match order {
        Order::Merge { set, link, out } => {
            perform_merge(alloc, set, link, out.as_str(), files, errors, host)
        }
        Order::Run {
            set,
            link,
            steps,
            args,
        } => perform_run(
            alloc,
            set,
            link,
            *steps,
            args.items(),
            files,
            input,
            output,
            errors,
            ambient,
            host,
        ),
        Order::Plan { set, link } => perform_plan(alloc, set, link, files, output, errors, host),
        Order::Gen { n, pages, steps } => {
            perform_gen(alloc, *n, *pages, *steps, output, errors, host)
        }
        Order::Exec { file, steps, args } => perform_exec(
            alloc,
            file.as_str(),
            *steps,
            args.items(),
            files,
            input,
            output,
            errors,
            ambient,
            host,
        ),
        Order::Trace {
            one,
            set,
            link,
            steps,
            out,
            args,
        } => perform_trace(
            alloc,
            *one,
            set,
            link,
            *steps,
            out.as_str(),
            args.items(),
            files,
            input,
            output,
            errors,
            ambient,
            host,
        ),
        Order::Replay {
            one,
            trace,
            set,
            link,
            steps,
        } => perform_replay(
            alloc,
            *one,
            trace.as_str(),
            set,
            link,
            *steps,
            files,
            errors,
            host,
        ),
        Order::Snap {
            set,
            link,
            steps,
            out,
        } => perform_snap(alloc, set, link, *steps, out.as_str(), files, errors, host),
        Order::Board {
            mains,
            link,
            steps,
            slice,
            turns,
        } => perform_board(
            alloc,
            mains.items(),
            link,
            *steps,
            *slice,
            *turns,
            files,
            input,
            output,
            errors,
            ambient,
            host,
            picker,
        ),
    }
}

/// Does what the words ask for, and answers what came of it.
///
/// The words are the program's name, a command, and the words of the command:
///
/// - `merge MAIN OUT` gathers the closed set of the main module at the path MAIN, links it, and writes one module at OUT, which agrees
///   with the loaded set: whatever a host answers, after any number of steps of either run there is a number of steps of the other
///   with the same host calls on the same memory, and with the same end.
/// - `plan MAIN` gathers and links the set, and puts its listing to the output.
/// - `gen N` generates the set of N members, merges it, runs it as loaded and as merged over nothing outside, and puts a summary of the two
///   runs to the output.
/// - `run MAIN` gathers and links the set, and runs it as loaded.
/// - `exec FILE` runs the module at the path FILE.
/// - `trace MAIN OUT` runs the set as `run` does, or with `--one` the module at the path MAIN as `exec` does, and writes the trace of the run
///   at OUT: its host calls with their answers, its steps and its end. A trace of more than 67,108,864 bytes is not written.
/// - `replay TRACE MAIN` checks that the file at TRACE is the trace of a run of the set, or with `--one` of the module at the path MAIN: it is
///   done exactly where the steps of that program over the answers of the trace come to its host calls and to its end.
/// - `snap MAIN OUT` gathers and links the set, runs its start-up up to the call of its entry, and writes one module at OUT, which begins
///   there: it opens with the memory that start-up left, and agrees with the merged module. There is none where start-up makes a host call or
///   traps.
/// - `board MAIN` gathers and links the set of each of 1 to 64 main modules, and runs them in turns. A turn is of the program that the picker
///   answers for the turn's number, from 0, and the number of programs. It stops where the program has ended, where its steps are used up, where
///   it waits at a host call, after 1,000 steps, or as many as `--slice` says, or where a limit of depth is due; a call is answered before the
///   next turn. There are turns until each program has ended or has a limit due, and at most 1,048,576, or as many as `--turns` says.
///
/// A run of `run`, `exec` and `trace` makes at most 1,000,000,000 steps, or as many as `--steps` says, and so does one that is replayed, the
/// start-up of `snap`, and each program of a board. Calls of `wasi_snapshot_preview1` are answered over the input, the output, the errors, the clock and the random
/// words, and others by the callbacks of the table. The options of a set are `--dl`, `--path`, `--pages`, `--stack` and `--no-duplicates`, those
/// of the sets of a board `--pages` and `--stack`.
///
/// What is not done, and the end of a run that neither returned nor exited, is told by one line, which is put to the errors at the end; a board
/// has one for each program that ended so, all in one put.
pub fn serve<F: Files, I: Source, O: Sink, E: Sink, A: Ambient>(
    alloc: Global,
    words: &[String],
    files: &mut F,
    input: &mut I,
    output: &mut O,
    errors: &mut E,
    ambient: &mut A,
    host: &HostTable,
    picker: &Picker,
) -> Outcome
    // The answer is the outcome that is due over the files that are told, and what it tells of them holds.
    ensures due { ForSome (F.seen files.old).told (λ told. (due : Outcome) → DueFor (names_of host.now) (get told) (order_of words.now) due → Yields (order_of words.now) due result) }
    ensures tells { ForSome (F.seen files.old).told (λ told. TellsFor (names_of host.now) (get told) (order_of words.now) result) }
    ensures files { ForSome (F.seen files.old).told (λ told. LeavesFor (names_of host.now) (order_of words.now) told result (F.seen files.old) (F.seen files.new)) }

    // Where the files are what the order needs and nothing of them fails, it is done.
    ensures complete { ForSome (F.seen files.old).told (λ told. IsComplete (names_of host.now) (get told) (order_of words.now) result (F.seen files.old) (F.seen files.new) (O.seen output.old).faults (O.seen output.new).faults) }

    // Whatever is told: when each answer may come, and which calls on files failed or found none. Want of memory is an answer of its own.
    ensures caused { Caused (names_of host.now) (order_of words.now) result (F.seen files.old) (F.seen files.new) (O.seen output.old).faults (O.seen output.new).faults }
    ensures inner { has_inner_memory result ≡ false }
    ensures counts { Counts (order_of words.now) result (F.seen files.old) (F.seen files.new) }

    // What a run does to the outside; and the line of the answer, which is put last.
    ensures does { DoesBy host.now (picks_of picker.now) (F.seen files.old) (order_of words.now) result (I.seen input.old) (O.seen output.old) (E.seen errors.old) (A.seen ambient.old) (I.seen input.new) (O.seen output.new) (E.seen errors.new) (A.seen ambient.new) }

    // What `trace` writes is the trace of the run that it made, also where memory was wanting for the line.
    ensures writes { WritesBy host.now (F.seen files.old) (order_of words.now) result (F.seen files.new) (I.seen input.old) (O.seen output.old) (E.seen errors.old) (A.seen ambient.old) (I.seen input.new) (O.seen output.new) (E.seen errors.new) (A.seen ambient.new) }
    ensures quiet { is_done result ≡ true → errors.new ≡ errors.old }
{
    match read_words(alloc, words) {
        Ok(order) => {
            let outcome = perform(
                alloc, &order, files, input, output, errors, ambient, host, picker,
            );
            drop(order);
            outcome
        }
        Err(WordFault::Usage { kind }) => tell(alloc, Outcome::Usage(kind), errors),
        Err(WordFault::Memory) => tell(alloc, Outcome::Memory, errors),
    }
}
