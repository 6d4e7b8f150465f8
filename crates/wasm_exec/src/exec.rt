// The run of one module, or of a linked set.
ghost use Rattle.std.specs.Prelude.{◌≡◌, ◌<◌, ◌≤◌, IfOk, OnOk};
ghost use Rattle.spec_hosts.specs.Devices.{devices, KeepsFronts};
ghost use Rattle.host_calls.specs.Embedders.{names_of, embedder_of, embedder};
ghost use Rattle.dyl_link.specs.host_table.Names.{HaveIntegers};
ghost use Rattle.wasm_exec.specs.Executed.{Executes, ExecutesSet, ModuleTakesAll, SetTakesAll};
ghost use Rattle.spec_loading.specs.spec_safety.SoundModules.{HoldsNumbers};
ghost use Rattle.run_loaded.specs.Courses.{Origin};
ghost use Rattle.run_loaded.specs.Programs.{recorded_of};
ghost use Rattle.spec_hosts.specs.spec_runtime.Courses.{no_steps};
ghost use Rattle.wasm_exec.specs.Driving.{IsBegun, IsDrivenTo, IsDrivenOn, Opens, IsRunFrom};

use crate::driver::Driver;
use dyl_link::Linked;
use dyl_link::host_table::{HostNames, HostTable};
use dyl_link::wasm_check::Checked;
use dyl_store::Store;
use host_calls::Hosts;
use host_wasi::{Wasi, declare};
use run_loaded::Loaded;
use spec_hosts::dyl_outside::{Ambient, Sink, Source};
use spec_hosts::wasm_form::{List, Memory, Text};
use spec_hosts::{Ran, RunEnd};
use std::alloc::Global;
use wasm_single::{Single, SingleFault};

/// The names of WASI, and then those of a table: the host functions that a program may import. Each has integers alone.
pub fn host_names(alloc: Global, table: &HostTable) -> Result<HostNames, Memory>
    ensures names { IfOk result (λ names. names ≡ names_of table.now) }
    ensures integers { OnOk result (HaveIntegers (names_of table.now)) }
{
    let first = declare(alloc, HostNames::new(alloc))?;
    let names = table.names(alloc, first)?;
    names.integers();
    Ok(names)
}

/// Runs a module for a program with these arguments, of which the first one is its name, for at most so many steps. Calls of
/// `wasi_snapshot_preview1` are answered over the outside, and others by the callbacks of the table. It is refused, with nothing done,
/// where it has no opening state.
pub fn execute<I: Source, O: Sink, E: Sink, A: Ambient>(
    alloc: Global,
    checked: &Checked,
    args: List<Text>,
    most: u64,
    table: &HostTable,
    input: &mut I,
    output: &mut O,
    errors: &mut E,
    ambient: &mut A,
) -> Result<Ran, SingleFault>
    requires most { most < 18446744073709551615 }
    requires numbers { HoldsNumbers checked.now }
    ensures executes { Executes checked.now (embedder_of args table.now) most result (devices (I.seen input.old) (O.seen output.old) (E.seen errors.old) (A.seen ambient.old)) (devices (I.seen input.new) (O.seen output.new) (E.seen errors.new) (A.seen ambient.new)) }
    ensures fronts { KeepsFronts (devices (I.seen input.old) (O.seen output.old) (E.seen errors.old) (A.seen ambient.old)) (devices (I.seen input.new) (O.seen output.new) (E.seen errors.new) (A.seen ambient.new)) }
    ensures taken { ModuleTakesAll checked.now (names_of table.now) result }
{
    let names = host_names(alloc, table)?;
    let single = match Single::load(alloc, checked, &names) {
        Ok(single) => single,
        Err(fault) => {
            drop(names);
            return Err(fault);
        }
    };
    drop(names);
    let program = Loaded::Module(single);
    match run_program(
        alloc, program, args, most, table, input, output, errors, ambient,
    ) {
        Ok(ran) => Ok(ran),
        Err(Memory) => Err(SingleFault::Memory),
    }
}

/// Runs a linked set for a program with these arguments, of which the first one is its name, for at most so many steps: main is opened
/// with the members that it needs, and then its entry is called. Host calls are answered as for one module. The set was linked over the
/// names that `host_names` gives for the table. `Memory` where no memory could be had.
pub fn execute_set<I: Source, O: Sink, E: Sink, A: Ambient>(
    alloc: Global,
    linked: &Linked,
    args: List<Text>,
    most: u64,
    table: &HostTable,
    input: &mut I,
    output: &mut O,
    errors: &mut E,
    ambient: &mut A,
) -> Result<Ran, Memory>
    requires most { most < 18446744073709551615 }
    requires names { linked.now.names ≡ names_of table.now }
    ensures executes { ExecutesSet linked.now (embedder_of args table.now) most result (devices (I.seen input.old) (O.seen output.old) (E.seen errors.old) (A.seen ambient.old)) (devices (I.seen input.new) (O.seen output.new) (E.seen errors.new) (A.seen ambient.new)) }
    ensures fronts { KeepsFronts (devices (I.seen input.old) (O.seen output.old) (E.seen errors.old) (A.seen ambient.old)) (devices (I.seen input.new) (O.seen output.new) (E.seen errors.new) (A.seen ambient.new)) }
    ensures taken { SetTakesAll linked.now result }
{
    linked.links();
    linked.hosts_have_integers();
    match Store::load(alloc, linked) {
        Ok(store) => run_program(
            alloc,
            Loaded::Set(store),
            args,
            most,
            table,
            input,
            output,
            errors,
            ambient,
        ),
        Err(memory) => {
            drop(args);
            Err(memory)
        }
    }
}

/// Runs what was opened.
fn run_program<I: Source, O: Sink, E: Sink, A: Ambient>(
    alloc: Global,
    program: Loaded,
    args: List<Text>,
    most: u64,
    table: &HostTable,
    input: &mut I,
    output: &mut O,
    errors: &mut E,
    ambient: &mut A,
) -> Result<Ran, Memory>
    requires most { most < 18446744073709551615 }
    requires fresh { recorded_of program ≡ no_steps }
    requires opened { (o : Origin) × Opens o (names_of table.now) program }
    ensures { IsRunFrom (embedder_of args table.now) most result program.entry (devices (I.seen input.old) (O.seen output.old) (E.seen errors.old) (A.seen ambient.old)) (devices (I.seen input.new) (O.seen output.new) (E.seen errors.new) (A.seen ambient.new)) }
{
    match Hosts::bind(alloc, Wasi::new(alloc, args), table, program.hosts()) {
        Ok(hosts) => {
            let driver = Driver::new(program);
            let told = drive(alloc, driver, most, &hosts, input, output, errors, ambient);
            drop(hosts);
            told
        }
        Err(memory) => {
            drop(program.into_answers());
            Err(memory)
        }
    }
}

/// Makes the steps of a run, and answers its host calls, until it ends or a limit is due.
fn drive<I: Source, O: Sink, E: Sink, A: Ambient>(
    alloc: Global,
    driver: Driver,
    most: u64,
    hosts: &Hosts,
    input: &mut I,
    output: &mut O,
    errors: &mut E,
    ambient: &mut A,
) -> Result<Ran, Memory>
    requires most { most < 18446744073709551615 }
    requires few { (recorded_of driver.program).steps ≤ most }
    requires driven { IsBegun hosts.now driver (devices (I.seen input.old) (O.seen output.old) (E.seen errors.old) (A.seen ambient.old)) }
    ensures { IsDrivenTo (embedder hosts.now) most result driver.entry (devices (I.seen input.old) (O.seen output.old) (E.seen errors.old) (A.seen ambient.old)) (devices (I.seen input.new) (O.seen output.new) (E.seen errors.new) (A.seen ambient.new)) }
{
    let mut driver = driver;
    match drive_on(
        alloc,
        &mut driver,
        most,
        hosts,
        input,
        output,
        errors,
        ambient,
    ) {
        Ok(end) => Ok(driver.finish(end)),
        Err(memory) => {
            drop(driver.into_answers());
            Err(memory)
        }
    }
}

/// The same over what a caller owns. The end, once it has come.
fn drive_on<I: Source, O: Sink, E: Sink, A: Ambient>(
    alloc: Global,
    driver: &mut Driver,
    most: u64,
    hosts: &Hosts,
    input: &mut I,
    output: &mut O,
    errors: &mut E,
    ambient: &mut A,
) -> Result<RunEnd, Memory>
    requires most { most < 18446744073709551615 }
    requires few { (recorded_of driver.old.program).steps ≤ most }
    requires driven { IsBegun hosts.now driver.old (devices (I.seen input.old) (O.seen output.old) (E.seen errors.old) (A.seen ambient.old)) }
    ensures { IsDrivenOn (embedder hosts.now) most result driver.old driver.new (devices (I.seen input.old) (O.seen output.old) (E.seen errors.old) (A.seen ambient.old)) (devices (I.seen input.new) (O.seen output.new) (E.seen errors.new) (A.seen ambient.new)) }
{
    while driver.program.steps() < most {
        if let Some(end) = driver.proceed(alloc, most, hosts, input, output, errors, ambient)? {
            return Ok(end);
        }
    }
    driver.last(alloc)
}
