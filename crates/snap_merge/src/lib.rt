//! Runs the start-up of a linked set once, and writes the module that begins where it ended.
#![tactic(auto)]

mod added;
mod amount;
mod making;
mod starting;
mod writing;

ghost use Rattle.std.specs.Prelude.{◌≡◌, ◌<◌, ◌≤◌, ◌⊎◌, ◌^◌, ℕ, Err, IfOk, IfErr};
ghost use Rattle.spec_snapshots.specs.declared.fault.SnapFault.TheVariants as faults;
ghost use Rattle.spec_loading.specs.SoundSets.{HoldBytes};
ghost use Rattle.dyl_store.specs.Stores.{new_run};
ghost use Rattle.merge_module.specs.Laws.{types_bulk};
ghost use Rattle.merge_module.specs.MergedModule.{added_types};
ghost use Rattle.spec_snapshots.specs.Causes.{Takes, IsFirst, state_after};
ghost use Rattle.snap_merge.specs.Answers.{Snapped, SnapTells, amount, IsSpelledFirst, IsLongFirst};

use crate::starting::start_up;
use crate::writing::written;
use dyl_link::Linked;
use dyl_store::Store;
use merge_module::merged_modules_are_formed;
use snap_set::{first_states_are_one, spelled_snapshots_are_snapshots};
use snap_sizes::snapshots_are_short;
use spec_reading::bytes_spell_one_module;
pub use spec_snapshots::SnapFault;
use std::alloc::Global;
use wasm_machine::holds_bytes;

// The data segments of all members are of bytes.
fn hold_bytes(linked: &Linked)
    ensures { HoldBytes linked.now }
{
    for member in linked.members() {
        holds_bytes(member.checked.module());
    }
}

// The same over the run of the set, which has made no step.
fn taken(alloc: Global, linked: &Linked, store: &mut Store, most: u64) -> Result<Vec<u8>, SnapFault>
    requires fresh { store.old ≡ new_run linked.now }
    ensures snapped { IfOk result (λ b. (n : ℕ) × IsFirst linked.now most n Takes × Snapped linked.now b.items (state_after linked.now n)) }
    ensures tells { IfErr result (λ fault. SnapTells linked.now most fault) }
    ensures spelled { IfOk result (λ b. IsSpelledFirst linked.now most b.items) }
    ensures exact { (id : ℕ) → result ≡ Err (faults.SectionSize id) → IsLongFirst linked.now most id }
    ensures only_long { (id : ℕ) → IsLongFirst linked.now most id → (result ≡ Err (faults.SectionSize id)) ⊎ (result ≡ Err faults.Memory) }
{
    linked.links();
    linked.has_few_pages();
    linked.hosts_have_integers();
    store.holds_bytes();
    spelled_snapshots_are_snapshots();
    bytes_spell_one_module();
    merged_modules_are_formed();
    first_states_are_one();
    match start_up(alloc, store, most) {
        Ok(()) => written(alloc, linked, store),
        Err(fault) => Err(fault),
    }
}

/// The snapshot of a linked set after its start-up, of which at most `most` steps are made: a module that begins where the run of the set has
/// just called its entry. Its bytes are the encoding of the merged module with what the set has there.
///
/// The run is made without answers. Of the first of its states of which something is to be said, it is told why there is no snapshot: it waits
/// for a host function, has trapped, all steps are made, or the next one would pass a limit of depth.
///
/// `SectionSize` comes exactly where a section of that module would take 2^32 bytes or more, with the number of the first such section; what is
/// written of the memory and of tables is determined by the state. No section is so long where there is little of the set and of its state, but
/// for types that the host table alone brings. Where these make a section too long, and where no memory could be had, comes `Memory`.
pub fn snapshot(alloc: Global, linked: &Linked, most: u64) -> Result<Vec<u8>, SnapFault>
    ensures snapped { IfOk result (λ b. (n : ℕ) × IsFirst linked.now most n Takes × Snapped linked.now b.items (state_after linked.now n)) }
    ensures tells { IfErr result (λ fault. SnapTells linked.now most fault) }
    ensures spelled { IfOk result (λ b. IsSpelledFirst linked.now most b.items) }
    ensures exact { (id : ℕ) → result ≡ Err (faults.SectionSize id) → IsLongFirst linked.now most id }
    ensures only_long { (id : ℕ) → IsLongFirst linked.now most id → (result ≡ Err (faults.SectionSize id)) ⊎ (result ≡ Err faults.Memory) }
    ensures little { (id : ℕ) → (x : IsLongFirst linked.now most id) → amount linked.now (state_after linked.now x.steps) < 2 ^ 32 → types_bulk (added_types linked.now) ≤ 33554432 → ⊥ }
{
    linked.links();
    linked.has_few_pages();
    linked.hosts_have_integers();
    hold_bytes(linked);
    snapshots_are_short();
    let mut store = Store::load(alloc, linked)?;
    let bytes = taken(alloc, linked, &mut store, most);
    drop(store);
    bytes
}
