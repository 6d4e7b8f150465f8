// The run of a module with its host functions, of which nothing is counted or recorded.
ghost use Rattle.wasm_single.specs.ModuleRuns.{module_runs};

use crate::bare_run::{Core, Phase};
use host_table::HostName;
use std::alloc::Global;
use wasm_check::Checked;
use wasm_form::Memory;
use wasm_machine::{Answer, Done, Event, Standing, View, are_numbers};
use wasm_recorder::Bare;
use wasm_space::Space;

/// The run of a module with host imports alone.
#[derive(Drop)]
pub struct ModuleRun<'m> {
    pub(crate) core: Core<'m>,
    pub(crate) hosts: Vec<HostName>,
}

impl<'m> Bare<Checked> for ModuleRun<'m> {
    ghost runs = { module_runs };

    fn step(&mut self, alloc: Global) -> Result<Event, Memory> {
        let event = self.core.step(alloc)?;
        are_numbers(&event);
        Ok(event)
    }

    fn run(&mut self, alloc: Global, most: u64) -> (u64, Done) {
        if self.core.phase == Phase::Opened {
            return (0, Done::Outside);
        }
        self.core.run(alloc, most)
    }

    fn take(&mut self, a: &Answer) {
        self.core.take(a);
    }

    fn standing(&self) -> Standing {
        self.core.machine.standing()
    }

    fn memory(&self) -> &Space {
        self.core.instance.memory()
    }

    fn hosts(&self) -> &[HostName] {
        &self.hosts
    }
}
