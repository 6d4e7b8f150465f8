// What a trace may be that of: a linked set, or one module.
ghost use Rattle.replay_check.specs.Checks.{HoldNumbers, Loads};

use dyl_link::Linked;
use dyl_link::host_table::HostNames;
use dyl_link::wasm_check::Checked;
use dyl_store::Store;
use run_loaded::Loaded;
use spec_traces::spec_hosts::wasm_form::Memory;
use std::alloc::Global;
use wasm_single::{Single, SingleFault};

/// A program that is run: a linked set, or one module with the host functions that it may import.
#[derive(Drop)]
pub enum Program<'m> {
    Set(&'m Linked),
    One(&'m Checked, &'m HostNames),
}

impl<'m> Program<'m> {
    /// The program in its opening state, or why it isn't opened, as `Single::load` answers; `Memory` where no memory could be had.
    pub(crate) fn load(&self, alloc: Global) -> Result<Loaded<'m>, SingleFault>
        requires { HoldNumbers self.now }
        ensures { Loads self.now result }
    {
        match self {
            Program::Set(linked) => match Store::load(alloc, *linked) {
                Ok(store) => Ok(Loaded::Set(store)),
                Err(Memory) => Err(SingleFault::Memory),
            },
            Program::One(checked, names) => match Single::load(alloc, *checked, *names) {
                Ok(single) => Ok(Loaded::Module(single)),
                Err(fault) => Err(fault),
            },
        }
    }
}
