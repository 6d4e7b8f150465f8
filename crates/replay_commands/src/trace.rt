// Running a set or a module, and writing the trace of the run.
ghost use Rattle.std.specs.Prelude.{◌≡◌, ◌≤◌, true, false, IfOk, Ok};
ghost use Rattle.host_calls.specs.Embedders.{names_of};
ghost use Rattle.spec_loading.specs.spec_safety.SoundModules.{HoldsNumbers};
ghost use Rattle.replay_check.specs.Checks.{IsOpened, HoldNumbers};
ghost use Rattle.dyl_front.specs.Orders.{IsLinkInRange};
ghost use Rattle.dyl_commands.specs.Due.{is_done};
ghost use Rattle.dyl_commands.specs.Counts.{StoresFor, Counts};
ghost use Rattle.dyl_commands.specs.Served.{Serves, StoreCounts, BeginsAsModule};
ghost use Rattle.dyl_commands.specs.Clauses.{TraceWorksBy};
ghost use Rattle.replay_commands.specs.Tracing.{WasMade, IsTextFor, StoresText, StoresTrace, SetTraces, ModuleTraces};
ghost use Rattle.replay_commands.specs.Written.{TraceWrites};

use dyl_commands::{
    MOST_RUN, exec_module, linked_set, read_module, refused, run_linked, store_output,
};
use dyl_front::{Order, Outcome};
use dyl_link::dyl_search::SetOptions;
use dyl_link::host_table::HostTable;
use dyl_link::wasm_check::Checked;
use dyl_link::{LinkOptions, Linked};
use replay_check::{Program, trace_of};
use replay_text::print_trace;
use spec_hosts::Ran;
use spec_hosts::dyl_outside::{Ambient, Files, Sink, Source};
use std::alloc::Global;
use wasm_exec::host_names;
use wasm_form::{Memory, Text};

/// The text of the trace of a run that was made.
fn text_of(alloc: Global, program: &Program, ran: &Ran) -> Result<Vec<u8>, Memory>
    requires numbers { HoldNumbers program.now }
    requires made { WasMade (IsOpened program.now) ran.now }
    ensures { IfOk result (λ text. IsTextFor (IsOpened program.now) ran.now text.items) }
{
    match trace_of(alloc, program, ran) {
        Ok(trace) => {
            let text = print_trace(alloc, &trace);
            drop(trace);
            text
        }
        Err(Memory) => Err(Memory),
    }
}

/// Stores the text of the trace of a run, unless it is too long.
fn store_text<F: Files>(alloc: Global, ran: Ran, text: &[u8], out: &str, files: &mut F) -> Outcome
    ensures stored { StoresText ran out.now text.now result (F.seen files.old) (F.seen files.new) }
    ensures counts { StoreCounts (StoresFor result) (F.seen files.old) (F.seen files.new) }
{
    if text.len() > MOST_RUN {
        return Outcome::TooLong(ran);
    }
    match store_output(alloc, out, text, files) {
        Ok(()) => Outcome::Ran(ran),
        Err(outcome) => {
            drop(ran);
            outcome
        }
    }
}

/// Stores the trace of a run of a program.
fn store_trace<F: Files>(
    alloc: Global,
    program: &Program,
    ran: Ran,
    out: &str,
    files: &mut F,
) -> Outcome
    requires numbers { HoldNumbers program.now }
    requires made { WasMade (IsOpened program.now) ran }
    ensures { StoresTrace (IsOpened program.now) ran out.now result (F.seen files.old) (F.seen files.new) }
{
    match text_of(alloc, program, &ran) {
        Ok(text) => store_text(alloc, ran, &text, out, files),
        Err(Memory) => {
            drop(ran);
            Outcome::Memory
        }
    }
}

/// Runs a linked set, and stores the trace.
fn trace_linked<F: Files, I: Source, O: Sink, E: Sink, A: Ambient>(
    alloc: Global,
    linked: &Linked,
    steps: u64,
    out: &str,
    args: &[Text],
    files: &mut F,
    input: &mut I,
    output: &mut O,
    errors: &mut E,
    ambient: &mut A,
    host: &HostTable,
) -> Outcome
    requires names { linked.now.names ≡ names_of host.now }
    requires steps { steps ≤ 9223372036854775807 }
    ensures { SetTraces host.now linked.now args.now steps out.now result (F.seen files.old) (F.seen files.new) (I.seen input.old) (O.seen output.old) (E.seen errors.old) (A.seen ambient.old) (I.seen input.new) (O.seen output.new) (E.seen errors.new) (A.seen ambient.new) }
{
    match run_linked(
        alloc, linked, steps, args, input, output, errors, ambient, host,
    ) {
        Outcome::Ran(ran) => store_trace(alloc, &Program::Set(linked), ran, out, files),
        outcome => outcome,
    }
}

/// Runs the set that is asked for, and stores the trace.
fn trace_set<F: Files, I: Source, O: Sink, E: Sink, A: Ambient>(
    alloc: Global,
    set: &SetOptions,
    link: &LinkOptions,
    steps: u64,
    out: &str,
    args: &[Text],
    files: &mut F,
    input: &mut I,
    output: &mut O,
    errors: &mut E,
    ambient: &mut A,
    host: &HostTable,
) -> Outcome
    requires link { IsLinkInRange link.now }
    requires steps { steps ≤ 9223372036854775807 }
    ensures serves { Serves (names_of host.now) (Ok (Order.Trace false set.now link.now steps out.now args.now)) result (F.seen files.old) (F.seen files.new) (O.seen output.old).faults (O.seen output.new).faults }
    ensures counts { Counts (Ok (Order.Trace false set.now link.now steps out.now args.now)) result (F.seen files.old) (F.seen files.new) }
    ensures done { is_done result ≡ false }
    ensures works { TraceWorksBy host.now (F.seen files.old) false set.now link.now steps out.now args.now result (I.seen input.old) (O.seen output.old) (E.seen errors.old) (A.seen ambient.old) (I.seen input.new) (O.seen output.new) (E.seen errors.new) (A.seen ambient.new) }
    ensures writes { TraceWrites host.now (F.seen files.old) false set.now link.now steps out.now args.now result (F.seen files.new) (I.seen input.old) (O.seen output.old) (E.seen errors.old) (A.seen ambient.old) (I.seen input.new) (O.seen output.new) (E.seen errors.new) (A.seen ambient.new) }
{
    match linked_set(alloc, set, link, files, host) {
        Ok(linked) => {
            let outcome = trace_linked(
                alloc, &linked, steps, out, args, files, input, output, errors, ambient, host,
            );
            drop(linked);
            outcome
        }
        Err(outcome) => outcome,
    }
}

/// Stores the trace of a run of a module that opens over the host functions of a table.
fn store_module_trace<F: Files>(
    alloc: Global,
    checked: &Checked,
    ran: Ran,
    out: &str,
    files: &mut F,
    host: &HostTable,
) -> Outcome
    requires numbers { HoldsNumbers checked.now }
    requires made { WasMade (BeginsAsModule checked.now (names_of host.now)) ran }
    ensures { StoresTrace (BeginsAsModule checked.now (names_of host.now)) ran out.now result (F.seen files.old) (F.seen files.new) }
{
    match host_names(alloc, host) {
        Ok(names) => {
            let outcome = store_trace(alloc, &Program::One(checked, &names), ran, out, files);
            drop(names);
            outcome
        }
        Err(Memory) => {
            drop(ran);
            Outcome::Memory
        }
    }
}

/// Runs a module that was read, and stores the trace.
fn trace_module<F: Files, I: Source, O: Sink, E: Sink, A: Ambient>(
    alloc: Global,
    checked: &Checked,
    steps: u64,
    out: &str,
    args: &[Text],
    files: &mut F,
    input: &mut I,
    output: &mut O,
    errors: &mut E,
    ambient: &mut A,
    host: &HostTable,
) -> Outcome
    requires steps { steps ≤ 9223372036854775807 }
    requires numbers { HoldsNumbers checked.now }
    ensures { ModuleTraces host.now checked.now args.now steps out.now result (F.seen files.old) (F.seen files.new) (I.seen input.old) (O.seen output.old) (E.seen errors.old) (A.seen ambient.old) (I.seen input.new) (O.seen output.new) (E.seen errors.new) (A.seen ambient.new) }
{
    match exec_module(
        alloc, checked, steps, args, input, output, errors, ambient, host,
    ) {
        Outcome::Ran(ran) => store_module_trace(alloc, checked, ran, out, files, host),
        outcome => outcome,
    }
}

/// Runs the module at a path, and stores the trace.
fn trace_file<F: Files, I: Source, O: Sink, E: Sink, A: Ambient>(
    alloc: Global,
    set: &SetOptions,
    link: &LinkOptions,
    steps: u64,
    out: &str,
    args: &[Text],
    files: &mut F,
    input: &mut I,
    output: &mut O,
    errors: &mut E,
    ambient: &mut A,
    host: &HostTable,
) -> Outcome
    requires { steps ≤ 9223372036854775807 }
    ensures serves { Serves (names_of host.now) (Ok (Order.Trace true set.now link.now steps out.now args.now)) result (F.seen files.old) (F.seen files.new) (O.seen output.old).faults (O.seen output.new).faults }
    ensures counts { Counts (Ok (Order.Trace true set.now link.now steps out.now args.now)) result (F.seen files.old) (F.seen files.new) }
    ensures done { is_done result ≡ false }
    ensures works { TraceWorksBy host.now (F.seen files.old) true set.now link.now steps out.now args.now result (I.seen input.old) (O.seen output.old) (E.seen errors.old) (A.seen ambient.old) (I.seen input.new) (O.seen output.new) (E.seen errors.new) (A.seen ambient.new) }
    ensures writes { TraceWrites host.now (F.seen files.old) true set.now link.now steps out.now args.now result (F.seen files.new) (I.seen input.old) (O.seen output.old) (E.seen errors.old) (A.seen ambient.old) (I.seen input.new) (O.seen output.new) (E.seen errors.new) (A.seen ambient.new) }
{
    match read_module(alloc, set.main.as_str(), files) {
        Ok(checked) => {
            let outcome = trace_module(
                alloc, &checked, steps, out, args, files, input, output, errors, ambient, host,
            );
            drop(checked);
            outcome
        }
        Err(fault) => refused(fault),
    }
}

/// Runs the set that is asked for, or with `one` the module at the path of its main one, for at most so many steps, for a program with
/// these arguments after its name, and stores the trace.
pub fn trace_main<F: Files, I: Source, O: Sink, E: Sink, A: Ambient>(
    alloc: Global,
    one: bool,
    set: &SetOptions,
    link: &LinkOptions,
    steps: u64,
    out: &str,
    args: &[Text],
    files: &mut F,
    input: &mut I,
    output: &mut O,
    errors: &mut E,
    ambient: &mut A,
    host: &HostTable,
) -> Outcome
    requires link { IsLinkInRange link.now }
    requires steps { steps ≤ 9223372036854775807 }
    ensures serves { Serves (names_of host.now) (Ok (Order.Trace one set.now link.now steps out.now args.now)) result (F.seen files.old) (F.seen files.new) (O.seen output.old).faults (O.seen output.new).faults }
    ensures counts { Counts (Ok (Order.Trace one set.now link.now steps out.now args.now)) result (F.seen files.old) (F.seen files.new) }
    ensures done { is_done result ≡ false }
    ensures works { TraceWorksBy host.now (F.seen files.old) one set.now link.now steps out.now args.now result (I.seen input.old) (O.seen output.old) (E.seen errors.old) (A.seen ambient.old) (I.seen input.new) (O.seen output.new) (E.seen errors.new) (A.seen ambient.new) }
    ensures writes { TraceWrites host.now (F.seen files.old) one set.now link.now steps out.now args.now result (F.seen files.new) (I.seen input.old) (O.seen output.old) (E.seen errors.old) (A.seen ambient.old) (I.seen input.new) (O.seen output.new) (E.seen errors.new) (A.seen ambient.new) }
{
    if one {
        trace_file(
            alloc, set, link, steps, out, args, files, input, output, errors, ambient, host,
        )
    } else {
        trace_set(
            alloc, set, link, steps, out, args, files, input, output, errors, ambient, host,
        )
    }
}
