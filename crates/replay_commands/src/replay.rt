// Checking that a trace is that of a run.
ghost use Rattle.std.specs.Prelude.{◌≡◌, ◌≤◌, ℕ, true, false, length, Ok, Err};
ghost use Rattle.host_calls.specs.Embedders.{names_of};
ghost use Rattle.spec_loading.specs.spec_safety.SoundModules.{HoldsNumbers};
ghost use Rattle.spec_loading.specs.spec_execution.OneModule.{module_opening};
ghost use Rattle.replay_check.specs.Checks.{IsOpened, IsRefused, HoldNumbers};
ghost use Rattle.dyl_link.specs.dyl_search.Gathers.{options_of};
ghost use Rattle.dyl_front.specs.Orders.{IsLinkInRange};
ghost use Rattle.dyl_commands.specs.Counts.{Stays, ProgramCounts, Counts};
ghost use Rattle.dyl_commands.specs.Served.{Serves, BeginsAsModule};
ghost use Rattle.replay_commands.specs.Tracing.{IsTextOfSome, ReadsTrace, FindsTrace, ChecksTo, Replays};

use dyl_commands::{fetch_file, linked_set, read_module, refused};
use dyl_front::{Order, Outcome};
use dyl_link::LinkOptions;
use dyl_link::dyl_search::SetOptions;
use dyl_link::host_table::HostTable;
use dyl_link::wasm_check::Checked;
use replay_check::{Program, check_trace};
use replay_text::{Trace, TraceFault, read_trace};
use spec_hosts::dyl_outside::Files;
use std::alloc::Global;
use wasm_exec::host_names;
use wasm_form::Memory;

/// The trace that bytes are the text of, or what is answered where they are none.
fn read_text(alloc: Global, bytes: &[u8]) -> Result<Trace, Outcome>
    requires { length bytes.now ≤ 67108864 }
    ensures { ReadsTrace bytes.now result }
{
    match read_trace(alloc, bytes) {
        Ok(trace) => Ok(trace),
        Err(TraceFault::Memory) => Err(Outcome::Memory),
        Err(fault) => Err(Outcome::Trace(fault)),
    }
}

/// The trace at a path, or what is answered where there is none.
fn find_trace<F: Files>(alloc: Global, path: &str, files: &mut F) -> Result<Trace, Outcome>
    ensures { FindsTrace path.now result (F.seen files.old) (F.seen files.new) }
{
    match fetch_file(alloc, path, files) {
        Ok(bytes) => read_text(alloc, &bytes),
        Err(fault) => Err(refused(fault)),
    }
}

/// What is answered for a trace by the run of a program.
fn check_outcome(alloc: Global, program: &Program, trace: &Trace, most: u64) -> Outcome
    requires text { IsTextOfSome trace.now }
    requires numbers { HoldNumbers program.now }
    ensures { ChecksTo (IsOpened program.now) (IsRefused program.now) trace.now most result }
{
    match check_trace(alloc, program, trace, most) {
        Ok(()) => Outcome::done(alloc),
        Err(TraceFault::Memory) => Outcome::Memory,
        Err(TraceFault::Single(fault)) => Outcome::Single(fault),
        Err(fault) => Outcome::Trace(fault),
    }
}

/// Checks a trace against the set that is asked for.
fn replay_set<F: Files>(
    alloc: Global,
    trace: &Trace,
    set: &SetOptions,
    link: &LinkOptions,
    steps: u64,
    files: &mut F,
    host: &HostTable,
) -> Outcome
    requires text { IsTextOfSome trace.now }
    requires link { IsLinkInRange link.now }
    ensures replays { Replays (names_of host.now) false set.now link.now steps trace.now result (F.seen files.old) (F.seen files.new) }
    ensures counts { ProgramCounts false Stays (options_of set.now) result (F.seen files.old) (F.seen files.new) }
{
    match linked_set(alloc, set, link, files, host) {
        Ok(linked) => {
            let outcome = check_outcome(alloc, &Program::Set(&linked), trace, steps);
            drop(linked);
            outcome
        }
        Err(outcome) => outcome,
    }
}

/// Checks a trace against a module that was read, over the host functions of a table.
fn replay_module(
    alloc: Global,
    trace: &Trace,
    checked: &Checked,
    steps: u64,
    host: &HostTable,
) -> Outcome
    requires text { IsTextOfSome trace.now }
    requires numbers { HoldsNumbers checked.now }
    ensures { ChecksTo (BeginsAsModule checked.now (names_of host.now)) (λ why. module_opening checked.now (names_of host.now) ≡ Err why) trace.now steps result }
{
    match host_names(alloc, host) {
        Ok(names) => {
            let outcome = check_outcome(alloc, &Program::One(checked, &names), trace, steps);
            drop(names);
            outcome
        }
        Err(Memory) => Outcome::Memory,
    }
}

/// Checks a trace against the module at the path of the main one.
fn replay_file<F: Files>(
    alloc: Global,
    trace: &Trace,
    set: &SetOptions,
    steps: u64,
    files: &mut F,
    host: &HostTable,
) -> Outcome
    requires { IsTextOfSome trace.now }
    ensures replays { (link : LinkOptions) → Replays (names_of host.now) true set.now link steps trace.now result (F.seen files.old) (F.seen files.new) }
    ensures counts { ProgramCounts true Stays (options_of set.now) result (F.seen files.old) (F.seen files.new) }
{
    match read_module(alloc, set.main.as_str(), files) {
        Ok(checked) => {
            let outcome = replay_module(alloc, trace, &checked, steps, host);
            drop(checked);
            outcome
        }
        Err(fault) => refused(fault),
    }
}

/// Checks a trace against the set that is asked for, or with `one` against the module at the path of its main one.
fn replay_found<F: Files>(
    alloc: Global,
    one: bool,
    trace: &Trace,
    set: &SetOptions,
    link: &LinkOptions,
    steps: u64,
    files: &mut F,
    host: &HostTable,
) -> Outcome
    requires text { IsTextOfSome trace.now }
    requires link { IsLinkInRange link.now }
    ensures replays { Replays (names_of host.now) one set.now link.now steps trace.now result (F.seen files.old) (F.seen files.new) }
    ensures counts { ProgramCounts one Stays (options_of set.now) result (F.seen files.old) (F.seen files.new) }
{
    if one {
        replay_file(alloc, trace, set, steps, files, host)
    } else {
        replay_set(alloc, trace, set, link, steps, files, host)
    }
}

/// Checks that the file at a path is the trace of a run, of at most so many steps, of the set that is asked for, or with `one` of the module
/// at the path of its main one.
pub fn replay_main<F: Files>(
    alloc: Global,
    one: bool,
    trace: &str,
    set: &SetOptions,
    link: &LinkOptions,
    steps: u64,
    files: &mut F,
    host: &HostTable,
) -> Outcome
    requires { IsLinkInRange link.now }
    ensures serves { (before now : ℕ) → Serves (names_of host.now) (Ok (Order.Replay one trace.now set.now link.now steps)) result (F.seen files.old) (F.seen files.new) before now }
    ensures counts { Counts (Ok (Order.Replay one trace.now set.now link.now steps)) result (F.seen files.old) (F.seen files.new) }
{
    match find_trace(alloc, trace, files) {
        Ok(found) => {
            let outcome = replay_found(alloc, one, &found, set, link, steps, files, host);
            drop(found);
            outcome
        }
        Err(outcome) => outcome,
    }
}
