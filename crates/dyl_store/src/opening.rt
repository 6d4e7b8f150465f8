// A linked set in its opening state.
ghost use Rattle.std.specs.Prelude.{◌≡◌, ◌≤◌, ◌+◌, length, IfOk};
ghost use Rattle.spec_loading.specs.spec_runtime.Memories.{overwritten};
ghost use Rattle.spec_loading.specs.Members.{set_view};
ghost use Rattle.spec_loading.specs.LoadedSet.{set_loading, set_opening, opening_memory};
ghost use Rattle.dyl_frames.specs.Cores.{IsCore, IsState};
ghost use Rattle.dyl_addresses.specs.Kept.{AreAddressesOf};
ghost use Rattle.dyl_store.specs.Opened.{IsOpened};
ghost use Rattle.dyl_store.specs.Runs.{IsRunning, IsRunnable, RunsAt};

use crate::contents::{datas_of, elems_of, globals_of, tables_of};
use crate::opened_members::units_of;
use crate::running::Running;
use crate::segment_places::placements_of;
use crate::tasks::member_tasks;
use crate::world::World;
use dyl_addresses::Addresses;
use dyl_frames::Core;
use dyl_link::Linked;
use spec_loading::{
    error_texts, linked_code_is_there, linked_sets_never_get_stuck, linked_sets_step_soundly,
    slots_fit,
};
use std::alloc::Global;
use wasm_form::Memory;
use wasm_space::Space;

// Writes bytes that lie in the memory.
fn put(memory: &mut Space, at: u32, bytes: &[u8])
    requires { at + length bytes.now ≤ length memory.old.bytes }
    ensures { memory.new ≡ record memory.old { bytes = overwritten memory.old.bytes at bytes.now } }
{
    let Ok(()) = memory.put(at, bytes) else {
        unreachable!();
    };
}

// The memory of a linked set: zeros, with the texts of the loader's errors behind the stack.
fn memory_of(alloc: Global, linked: &Linked) -> Result<Space, Memory>
    ensures { IfOk result (λ s. s ≡ opening_memory linked.now) }
{
    slots_fit();
    linked.links();
    linked.has_few_pages();
    let plan = linked.plan();
    let mut memory = Space::new(alloc, plan.pages(), plan.pages_max())?;
    put(&mut memory, plan.texts(), error_texts());
    Ok(memory)
}

// The machine of a linked set, over its members as they begin.
fn core_of<'m>(alloc: Global, linked: &Linked, world: &World<'m>) -> Result<Core<'m>, Memory>
    requires runnable { IsRunnable linked.now }
    requires opened { IsOpened linked.now world.now }
    ensures core { IfOk result (λ c. IsCore (set_view world.now.linked) world.now.store world.now.memory c) }
    ensures opened { IfOk result (λ c. IsState (set_loading linked.now) c world.now.store world.now.memory (set_opening linked.now)) }
{
    linked_sets_step_soundly();
    linked_sets_never_get_stuck();
    linked.links();
    let tasks = member_tasks(alloc, linked, 0)?;
    let count = linked.member_count();
    let core = Core::new(alloc, world, count, tasks)?;
    Ok(core)
}

impl<'m> World<'m> {
    // The members of a linked set as they begin, by the addresses of what they have.
    fn opened(alloc: Global, linked: &'m Linked, addresses: &Addresses) -> Result<World<'m>, Memory>
        requires { AreAddressesOf linked.now addresses.now }
        ensures { IfOk result (λ w. IsOpened linked.now w) }
    {
        linked_code_is_there();
        linked.links();
        let units = units_of(alloc, linked, addresses)?;
        let globals = globals_of(alloc, linked, addresses)?;
        let tables = tables_of(alloc, linked)?;
        let elems = elems_of(alloc, linked)?;
        let datas = datas_of(alloc, linked)?;
        let memory = memory_of(alloc, linked)?;
        Ok(World {
            linked,
            units,
            globals,
            tables,
            elems,
            datas,
            memory,
        })
    }

    // The members of a linked set as they begin.
    pub fn open(alloc: Global, linked: &'m Linked) -> Result<World<'m>, Memory>
        ensures { IfOk result (λ w. IsOpened linked.now w) }
    {
        let addresses = Addresses::of(alloc, linked)?;
        let opened = World::opened(alloc, linked, &addresses);
        drop(addresses);
        opened
    }
}

impl<'m> Running<'m> {
    // A linked set in its opening state.
    pub fn open(alloc: Global, linked: &'m Linked) -> Result<Running<'m>, Memory>
        requires { IsRunnable linked.now }
        ensures running { IfOk result (λ x. IsRunning x) }
        ensures opened { IfOk result (λ x. RunsAt linked.now x (set_opening linked.now)) }
        ensures linked { IfOk result (λ x. x.linked.now ≡ linked.now) }
    {
        linked.links();
        let placements = placements_of(alloc, linked)?;
        let world = match World::open(alloc, linked) {
            Ok(world) => world,
            Err(memory) => {
                drop(placements);
                return Err(memory);
            }
        };
        match core_of(alloc, linked, &world) {
            Ok(core) => Ok(Running {
                linked,
                world,
                core,
                placements,
            }),
            Err(memory) => {
                drop(world);
                drop(placements);
                Err(memory)
            }
        }
    }
}
