// The opening of a run (section 4.5.4).
ghost use Rattle.std.specs.Prelude.{◌≡◌};
ghost use Rattle.spec_safety.specs.spec_binary.Indices.{is_nullary};
ghost use Rattle.spec_safety.specs.SoundModules.{HoldsNumbers};
ghost use Rattle.spec_safety.specs.spec_execution.OneModule.{module_entry};
ghost use Rattle.wasm_single.specs.Singles.{Loads};

use crate::bare_run::{Core, Phase};
use crate::hosts::hosts_of;
use crate::module_run::ModuleRun;
use crate::single::Single;
use host_table::HostNames;
use spec_safety::spec_execution::SingleFault;
use spec_safety::{checked_code_is_typed, modules_open_soundly};
use std::alloc::Global;
use wasm_check::{Checked, exported_function};
use wasm_form::FuncType;
use wasm_instance::Instance;
use wasm_machine::{Machine, holds_bytes};
use wasm_recorder::Recorder;

impl<'m> Single<'m> {
    /// A module in its opening state, or why there is none. In order: the first import that isn't a declared host function
    /// (`HostImport`) or is one of another type (`HostType`), no entry, an active segment out of bounds.
    pub fn load(
        alloc: Global,
        checked: &'m Checked,
        names: &HostNames,
    ) -> Result<Single<'m>, SingleFault>
        requires numbers { HoldsNumbers checked.now }
        ensures { Loads checked.now names.now result }
    {
        checked_code_is_typed();
        modules_open_soundly();
        let m = checked.module();
        holds_bytes(m);
        let hosts = hosts_of(alloc, m, names, m.imports.items())?;
        let Some(entry) = entry_of(checked) else {
            drop(hosts);
            return Err(SingleFault::NoEntry);
        };
        let instance = match Instance::open(alloc, checked) {
            Ok(instance) => instance,
            Err(fault) => {
                drop(hosts);
                return Err(fault);
            }
        };
        let core = Core {
            checked,
            instance,
            machine: Machine::new(alloc),
            start: m.start,
            entry,
            phase: Phase::Opened,
        };
        Ok(Single {
            run: Recorder::new(alloc, ModuleRun { core, hosts }),
        })
    }
}

/// The function without parameters and results that a module defines and exports as `_start`.
fn entry_of(checked: &Checked) -> Option<u32>
    ensures { result ≡ module_entry checked.now }
{
    let f = exported_function(checked.module(), "_start")?;
    if is_nullary(checked.func_type(f)) {
        Some(f)
    } else {
        None
    }
}

fn is_nullary(ty: &FuncType) -> bool
    ensures { result ≡ is_nullary ty.now }
{
    ty.params.items().is_empty() && ty.results.items().is_empty()
}
