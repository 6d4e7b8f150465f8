// The run of a linked set with what is told of how it stands, of which nothing is counted or recorded.
ghost use Rattle.std.specs.Prelude.{◌≡◌, true, OnOk, OnErr};
ghost use Rattle.wasm_machine.specs.Steps.{stands_told, is_wait};
ghost use Rattle.dyl_store.specs.SetRuns.{set_runs};

use crate::running::Running;
use dyl_link::Linked;
use dyl_link::host_table::HostName;
use spec_loading::linked_sets_never_get_stuck;
use std::alloc::Global;
use wasm_form::Memory;
use wasm_machine::{
    Answer, Done, Event, Standing, are_numbers, event_of, is_of_bytes, stands_told,
};
use wasm_recorder::Bare;
use wasm_space::Space;

// What runs, and what is told of how it stands.
#[derive(Drop)]
pub(crate) struct SetRun<'m> {
    pub running: Running<'m>,
    pub event: Event,
}

// Keeps what is told of a run.
fn tell(kept: &mut Event, event: Event)
    ensures { kept.new ≡ event }
{
    *kept = event;
}

// Keeps what is told of a step.
fn tell_step(kept: &mut Event, alloc: Global, event: &Event) -> Result<(), Memory>
    ensures told { OnOk result (kept.new ≡ stands_told event.now) }
    ensures wanting { OnErr result (is_wait event.now ≡ true) }
{
    tell(kept, stands_told(alloc, event)?);
    Ok(())
}

impl<'m> Bare<Linked> for SetRun<'m> {
    ghost runs = { set_runs };

    fn step(&mut self, alloc: Global) -> Result<Event, Memory> {
        linked_sets_never_get_stuck();
        let event = self.running.step(alloc)?;
        are_numbers(&event);
        let Ok(()) = tell_step(&mut self.event, alloc, &event) else {
            drop(event);
            return Err(Memory);
        };
        Ok(event)
    }

    fn run(&mut self, alloc: Global, most: u64) -> (u64, Done) {
        let told = self.running.run(alloc, most);
        tell(&mut self.event, event_of(self.running.core.standing()));
        told
    }

    fn take(&mut self, a: &Answer) {
        is_of_bytes(a);
        self.running.take(a);
        tell(&mut self.event, event_of(self.running.core.standing()));
    }

    fn standing(&self) -> Standing {
        self.running.core.standing()
    }

    fn memory(&self) -> &Space {
        &self.running.world.memory
    }

    fn hosts(&self) -> &[HostName] {
        self.running.linked.hosts()
    }
}
