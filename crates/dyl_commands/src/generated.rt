// Making a set, and running it loaded and merged.
ghost use Rattle.std.specs.Prelude.{◌≡◌, ◌≤◌, ◌∷◌, [], IfOk, None, Ok};
ghost use Rattle.spec_hosts.specs.dyl_outside.Files.{FilesState};
ghost use Rattle.spec_reading.specs.spec_binary.DecodeAnswers.{DecodeAnswer};
ghost use Rattle.spec_reading.specs.spec_binary.WellFormed.{IsWellFormed};
ghost use Rattle.spec_loading.specs.spec_validation.Faults as validation;
ghost use Rattle.spec_loading.specs.spec_execution.OneModule.{ModuleState, module_opening};
ghost use Rattle.spec_loading.specs.spec_safety.SoundModules.{HoldsNumbers};
ghost use Rattle.host_calls.specs.Embedders.{names_of, embedder_of};
ghost use Rattle.dyl_link.specs.dyl_search.Gathers.{options_of};
ghost use Rattle.dyl_link.specs.Sets as links;
ghost use Rattle.dyl_commands.specs.Generated.{with_pages};
ghost use Rattle.dyl_commands.specs.Served.{Serves};
ghost use Rattle.dyl_commands.specs.Runs.{guest_arguments, GenWorks};
ghost use Rattle.dyl_commands.specs.GeneratedRuns.{MakesFiles, MakesSet, IsLittle, RunsLoaded, MergesTo, RunsModule, SumsUp, RunsBoth};

use crate::exec::guest_arguments;
use crate::sets::{linked_set, main_alone};
use dyl_front::{Order, Outcome, Report, summary};
use dyl_gen::{GenFault, generated_set_links, make};
use dyl_link::dyl_search::SetOptions;
use dyl_link::host_table::HostTable;
use dyl_link::wasm_check::{Checked, check};
use dyl_link::{LinkOptions, Linked};
use merge_whole::merge;
use spec_hosts::Ran;
use spec_hosts::dyl_outside::{EmptySource, HeldFiles, HeldSink, IoFault, MemAmbient, Sink};
use spec_loading::spec_execution::SingleFault;
use spec_loading::spec_validation::CheckFault;
use spec_merging::MergeFault;
use spec_reading::spec_binary::DecodeFault;
use std::alloc::Global;
use wasm_decode::decode;
use wasm_exec::{execute, execute_set};
use wasm_form::{List, Memory, Module, Text};

/// The bytes of the stack of a set that is made.
const STACK: u32 = 65_536;

/// How it is linked.
fn with_pages(pages: u32) -> LinkOptions
    ensures { links.options_of result ≡ with_pages pages }
{
    LinkOptions {
        stack: STACK,
        pages,
        no_duplicates: false,
    }
}

/// The files of a set of n members.
fn made_files(alloc: Global, n: u32) -> Result<HeldFiles, Outcome>
    ensures { MakesFiles n result }
{
    match make(alloc, n) {
        Ok(files) => Ok(HeldFiles::of(files)),
        Err(GenFault::Memory) => Err(Outcome::Memory),
        Err(GenFault::Range) => Err(Outcome::Gen(GenFault::Range)),
    }
}

/// A set of n members that is made, gathered and linked.
fn made_set(alloc: Global, n: u32, pages: u32, host: &HostTable) -> Result<Linked, Outcome>
    requires some { 1 ≤ pages }
    requires few { pages ≤ 16384 }
    ensures { MakesSet (names_of host.now) n pages result }
{
    generated_set_links();
    let Ok(set) = main_alone(alloc, "m0.wasm") else {
        return Err(Outcome::Memory);
    };
    match made_files(alloc, n) {
        Ok(mut files) => {
            let linked = linked_set(alloc, &set, &with_pages(pages), &mut files, host);
            drop(files);
            linked
        }
        Err(outcome) => Err(outcome),
    }
}

/// Runs a linked set over nothing outside.
fn loaded_report(
    alloc: Global,
    linked: &Linked,
    steps: u64,
    host: &HostTable,
) -> Result<Report, Memory>
    requires names { linked.now.names ≡ names_of host.now }
    requires steps { steps ≤ 9223372036854775807 }
    ensures { IfOk result (RunsLoaded linked.now (embedder_of (guest_arguments []) host.now) steps) }
{
    let args = guest_arguments(alloc, &[])?;
    let mut output = HeldSink::new(alloc);
    let mut errors = HeldSink::new(alloc);
    let mut ambient = MemAmbient::new(alloc, Vec::new(alloc), Vec::new(alloc));
    let executed = execute_set(
        alloc,
        linked,
        args,
        steps,
        host,
        &mut EmptySource,
        &mut output,
        &mut errors,
        &mut ambient,
    );
    let output = output.into_bytes();
    match executed {
        Ok(ran) => Ok(Report { ran, output }),
        Err(Memory) => Err(Memory),
    }
}

/// What the bytes of a module are decoded to.
fn decoded(alloc: Global, bytes: &[u8]) -> Result<Module, Memory>
    requires { (wasm : Module) × DecodeAnswer bytes.now (Ok wasm) }
    ensures formed { IfOk result IsWellFormed }
    ensures told { (wasm : Module) → DecodeAnswer bytes.now (Ok wasm) → IfOk result (λ m. wasm ≡ m) }
{
    match decode(alloc, bytes) {
        Ok(wasm) => Ok(wasm),
        Err(DecodeFault::Memory) => Err(Memory),
        Err(_) => unreachable!(),
    }
}

/// A module that is valid.
fn checked(alloc: Global, wasm: Module) -> Result<Checked, Memory>
    requires formed { IsWellFormed wasm }
    requires valid { validation.fault wasm ≡ None }
    ensures { IfOk result (λ checked. checked ≡ wasm) }
{
    match check(alloc, wasm) {
        Ok(checked) => Ok(checked),
        Err(refused) => {
            let fault = refused.fault;
            drop(refused);
            match fault {
                CheckFault::Memory => Err(Memory),
                _ => unreachable!(),
            }
        }
    }
}

/// The merged module of a linked set of which there is little, read from its bytes.
fn merged_module(alloc: Global, linked: &Linked) -> Result<Checked, Memory>
    requires little { IsLittle linked.now }
    ensures { IfOk result (MergesTo linked.now) }
{
    match merge(alloc, linked) {
        Ok(bytes) => {
            let wasm = decoded(alloc, &bytes)?;
            checked(alloc, wasm)
        }
        Err(MergeFault::Memory) => Err(Memory),
        Err(MergeFault::SectionSize { .. }) => unreachable!(),
    }
}

/// Runs a module that opens over nothing outside.
fn merged_report(
    alloc: Global,
    checked: &Checked,
    steps: u64,
    host: &HostTable,
) -> Result<Report, Memory>
    requires opens { (opening : ModuleState) × (module_opening checked.now (names_of host.now) ≡ Ok opening) }
    requires numbers { HoldsNumbers checked.now }
    requires steps { steps ≤ 9223372036854775807 }
    ensures { IfOk result (RunsModule checked.now (embedder_of (guest_arguments []) host.now) steps) }
{
    let args = guest_arguments(alloc, &[])?;
    let mut output = HeldSink::new(alloc);
    let mut errors = HeldSink::new(alloc);
    let mut ambient = MemAmbient::new(alloc, Vec::new(alloc), Vec::new(alloc));
    let executed = execute(
        alloc,
        checked,
        args,
        steps,
        host,
        &mut EmptySource,
        &mut output,
        &mut errors,
        &mut ambient,
    );
    let output = output.into_bytes();
    match executed {
        Ok(ran) => Ok(Report { ran, output }),
        Err(SingleFault::Memory) => Err(Memory),
        Err(_) => unreachable!(),
    }
}

/// Runs the merged module of a linked set of which there is little over nothing outside.
fn merged_run(
    alloc: Global,
    linked: &Linked,
    steps: u64,
    host: &HostTable,
) -> Result<Report, Memory>
    requires names { linked.now.names ≡ names_of host.now }
    requires little { IsLittle linked.now }
    requires steps { steps ≤ 9223372036854775807 }
    ensures { IfOk result (λ report. (wasm : Module) × MergesTo linked.now wasm × RunsModule wasm (embedder_of (guest_arguments []) host.now) steps report) }
{
    match merged_module(alloc, linked) {
        Ok(checked) => {
            let report = merged_report(alloc, &checked, steps, host);
            drop(checked);
            report
        }
        Err(Memory) => Err(Memory),
    }
}

/// What came of two runs.
fn both(alloc: Global, loaded: Report, merged: Report) -> Result<List<Ran>, Memory>
    ensures { IfOk result (λ runs. runs ≡ loaded.ran ∷ merged.ran ∷ []) }
{
    let mut runs = Vec::new(alloc);
    runs.push(loaded.ran)?;
    runs.push(merged.ran)?;
    Ok(List::of(runs))
}

/// Puts the summary of a linked set, by what came of its two runs.
fn put_summary<O: Sink>(
    alloc: Global,
    linked: &Linked,
    loaded: Report,
    merged: Report,
    output: &mut O,
) -> Outcome
    ensures { SumsUp linked.now loaded merged result (O.seen output.old) (O.seen output.new) }
{
    let Ok(text) = summary(alloc, linked, &loaded, &merged) else {
        return Outcome::Memory;
    };
    let Ok(runs) = both(alloc, loaded, merged) else {
        return Outcome::Memory;
    };
    match output.put(alloc, &text) {
        Ok(()) => Outcome::Done(runs),
        Err(IoFault::Failed) => Outcome::WriteFault,
        Err(IoFault::Memory) => Outcome::Memory,
    }
}

/// Runs a linked set of which there is little loaded and merged, for at most so many steps each, and puts the summary.
fn run_both<O: Sink>(
    alloc: Global,
    linked: &Linked,
    steps: u64,
    output: &mut O,
    host: &HostTable,
) -> Outcome
    requires names { linked.now.names ≡ names_of host.now }
    requires little { IsLittle linked.now }
    requires steps { steps ≤ 9223372036854775807 }
    ensures { RunsBoth linked.now (embedder_of (guest_arguments []) host.now) steps result (O.seen output.old) (O.seen output.new) }
{
    let Ok(loaded) = loaded_report(alloc, linked, steps, host) else {
        return Outcome::Memory;
    };
    match merged_run(alloc, linked, steps, host) {
        Ok(merged) => put_summary(alloc, linked, loaded, merged, output),
        Err(Memory) => {
            drop(loaded);
            Outcome::Memory
        }
    }
}

/// Makes the set of n members, runs it loaded and merged for at most so many steps each, and puts the summary.
pub fn gen_main<O: Sink>(
    alloc: Global,
    n: u32,
    pages: u32,
    steps: u64,
    output: &mut O,
    host: &HostTable,
) -> Outcome
    requires some { 1 ≤ pages }
    requires few { pages ≤ 16384 }
    requires steps { steps ≤ 9223372036854775807 }
    ensures serves { (files : FilesState) → Serves (names_of host.now) (Ok (Order.Gen n pages steps)) result files files (O.seen output.old).faults (O.seen output.new).faults }
    ensures works { GenWorks (embedder_of (guest_arguments []) host.now) n pages steps result (O.seen output.old) (O.seen output.new) }
{
    generated_set_links();
    match made_set(alloc, n, pages, host) {
        Ok(linked) => {
            let outcome = run_both(alloc, &linked, steps, output, host);
            drop(linked);
            outcome
        }
        Err(outcome) => outcome,
    }
}
