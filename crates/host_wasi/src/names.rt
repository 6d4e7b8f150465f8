// The names of WASI preview 1.
ghost use Rattle.std.specs.Prelude.{◌≡◌, IfOk, OnOk};
ghost use Rattle.spec_hosts.specs.Calls.{with_wasi};

use crate::calls::CALLS;
use host_table::HostNames;
use spec_hosts::wasm_form::Memory;
use std::alloc::Global;

/// The module of the calls.
const MODULE: &str = "wasi_snapshot_preview1";

/// Declares the calls of `wasi_snapshot_preview1` with their types, and then every other name of that module.
pub fn declare(alloc: Global, names: HostNames) -> Result<HostNames, Memory>
    ensures { IfOk result (λ declared. declared ≡ with_wasi names) }
{
    let mut names = names;
    match add_calls(alloc, &mut names) {
        Ok(()) => Ok(names),
        Err(memory) => {
            drop(names);
            Err(memory)
        }
    }
}

/// Adds these calls, and then every other name of the module.
fn add_calls(alloc: Global, names: &mut HostNames) -> Result<(), Memory>
    ensures { OnOk result (names.new ≡ with_wasi names.old) }
{
    for call in &CALLS {
        let ty = call.ty(alloc)?;
        names.declare(alloc, MODULE, call.name(), ty)?;
    }
    names.declare_rest(alloc, MODULE)?;
    Ok(())
}
