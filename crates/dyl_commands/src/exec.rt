// Running one module.
ghost use Rattle.std.specs.Prelude.{◌≡◌, ◌≤◌, false, IfOk, Ok};
ghost use Rattle.host_calls.specs.Embedders.{names_of};
ghost use Rattle.spec_loading.specs.spec_safety.SoundModules.{HoldsNumbers};
ghost use Rattle.dyl_commands.specs.Runs.{guest_arguments};
ghost use Rattle.dyl_commands.specs.Due.{is_done};
ghost use Rattle.dyl_commands.specs.Counts.{Counts};
ghost use Rattle.dyl_commands.specs.Served.{Serves, BeginsAsModule, TakesAnswers};
ghost use Rattle.dyl_commands.specs.Clauses.{ModuleDoes, ExecWorksBy};

use crate::one_file::read_module;
use crate::sets::refused;
use dyl_front::{Order, Outcome};
use dyl_link::host_table::HostTable;
use dyl_link::wasm_check::Checked;
use spec_hosts::dyl_outside::{Ambient, Files, Sink, Source};
use spec_loading::spec_execution::SingleFault;
use std::alloc::Global;
use wasm_exec::execute;
use wasm_form::{List, Memory, Text};

/// The arguments that a guest sees: the name `program`, and then these.
pub(crate) fn guest_arguments(alloc: Global, args: &[Text]) -> Result<List<Text>, Memory>
    ensures { IfOk result (λ texts. texts ≡ guest_arguments args.now) }
{
    let mut texts = Vec::new(alloc);
    texts.push(Text::copied(alloc, "program")?)?;
    for arg in args {
        texts.push(Text::copied(alloc, arg.as_str())?)?;
    }
    Ok(List::of(texts))
}

/// Runs a module that was read.
pub fn exec_module<I: Source, O: Sink, E: Sink, A: Ambient>(
    alloc: Global,
    checked: &Checked,
    steps: u64,
    args: &[Text],
    input: &mut I,
    output: &mut O,
    errors: &mut E,
    ambient: &mut A,
    host: &HostTable,
) -> Outcome
    requires steps { steps ≤ 9223372036854775807 }
    requires numbers { HoldsNumbers checked.now }
    ensures taken { TakesAnswers (BeginsAsModule checked.now (names_of host.now)) result }
    ensures runs { ModuleDoes host.now checked.now args.now steps result (I.seen input.old) (O.seen output.old) (E.seen errors.old) (A.seen ambient.old) (I.seen input.new) (O.seen output.new) (E.seen errors.new) (A.seen ambient.new) }
{
    let Ok(args) = guest_arguments(alloc, args) else {
        return Outcome::Memory;
    };
    match execute(
        alloc, checked, args, steps, host, input, output, errors, ambient,
    ) {
        Ok(ran) => Outcome::Ran(ran),
        Err(SingleFault::Memory) => Outcome::Memory,
        Err(fault) => Outcome::Single(fault),
    }
}

/// Runs the module at a path for at most so many steps, for a program with these arguments after its name.
pub fn exec_file<F: Files, I: Source, O: Sink, E: Sink, A: Ambient>(
    alloc: Global,
    file: &str,
    steps: u64,
    args: &[Text],
    files: &mut F,
    input: &mut I,
    output: &mut O,
    errors: &mut E,
    ambient: &mut A,
    host: &HostTable,
) -> Outcome
    requires { steps ≤ 9223372036854775807 }
    ensures serves { Serves (names_of host.now) (Ok (Order.Exec file.now steps args.now)) result (F.seen files.old) (F.seen files.new) (O.seen output.old).faults (O.seen output.new).faults }
    ensures counts { Counts (Ok (Order.Exec file.now steps args.now)) result (F.seen files.old) (F.seen files.new) }
    ensures done { is_done result ≡ false }
    ensures works { ExecWorksBy host.now (F.seen files.old) file.now steps args.now result (I.seen input.old) (O.seen output.old) (E.seen errors.old) (A.seen ambient.old) (I.seen input.new) (O.seen output.new) (E.seen errors.new) (A.seen ambient.new) }
{
    match read_module(alloc, file, files) {
        Ok(checked) => {
            let outcome = exec_module(
                alloc, &checked, steps, args, input, output, errors, ambient, host,
            );
            drop(checked);
            outcome
        }
        Err(fault) => refused(fault),
    }
}
