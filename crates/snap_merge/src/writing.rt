// The module that holds the state of a start-up, and its bytes.
ghost use Rattle.std.specs.Prelude.{◌≡◌, ◌≤◌, ◌⊎◌, ◌^◌, ℕ, length, false, Err, IfOk, IfErr};
ghost use Rattle.spec_snapshots.specs.declared.fault.SnapFault.TheVariants as faults;
ghost use Rattle.spec_reading.specs.spec_binary.Number.{IsShortest};
ghost use Rattle.spec_reading.specs.spec_binary.Modules.{SpellsModule};
ghost use Rattle.spec_reading.specs.spec_binary.WellFormed.{IsWellFormed};
ghost use Rattle.spec_loading.specs.spec_runtime.Courses.{state_at};
ghost use Rattle.dyl_store.specs.Stores.{set_course};
ghost use Rattle.wasm_encode.specs.SectionSizes.{IsFirstTooLong};
ghost use Rattle.merge_whole.specs.Counts.{members_of};
ghost use Rattle.snap_merge.specs.Written.{IsTaken, IsHolding, amount_of, IsSpelled, IsWriteFault, WriteTells, TellsLong};

use crate::added::read_behind;
use crate::amount::is_much;
use crate::making::made;
use dyl_link::Linked;
use dyl_link::dyl_search::Member;
use dyl_store::Store;
use merge_module::merged_modules_are_formed;
use merge_whole::parts;
use snap_set::parts_can_be_held;
use spec_keeping::linked_sets_keep;
use spec_loading::linked_sets_never_get_stuck;
use spec_snapshots::{SnapFault, written_contents_are_one};
use std::alloc::Global;
use wasm_encode::{EncodeFault, encode};
use wasm_form::{Memory, Module};
use wasm_space::{Slots, Space};

// The bytes of a module. Where there isn't so much to be written, only types that the host table alone brings can make a section too long, and
// want of memory stands for that.
fn encoded(
    alloc: Global,
    wasm: &Module,
    members: &[Member],
    memory: &Space,
    tables: &[Slots],
) -> Result<Vec<u8>, SnapFault>
    requires formed { IsWellFormed wasm.now }
    requires few { length members.now ≤ 256 }
    ensures shortest { IfOk result (λ bytes. IsShortest (SpellsModule wasm.now) bytes.items) }
    ensures faults { IfErr result IsWriteFault }
    ensures long { (id : ℕ) → result ≡ Err (faults.SectionSize id) → IsFirstTooLong wasm.now id }
    ensures much { (id : ℕ) → result ≡ Err (faults.SectionSize id) → 2 ^ 32 ≤ amount_of (members_of members.now) memory.now tables.now }
    ensures only_long { (id : ℕ) → IsFirstTooLong wasm.now id → (result ≡ Err (faults.SectionSize id)) ⊎ (result ≡ Err faults.Memory) }
{
    match encode(alloc, wasm) {
        Ok(bytes) => Ok(bytes),
        Err(EncodeFault::SectionSize { id }) => {
            if is_much(members, memory, tables) {
                Err(SnapFault::SectionSize { id })
            } else {
                Err(SnapFault::Memory)
            }
        }
        Err(EncodeFault::Memory) => Err(SnapFault::Memory),
    }
}

// The module that holds the state at which a run stands.
fn holding(alloc: Global, linked: &Linked, store: &Store) -> Result<Module, Memory>
    requires same { store.now.linked ≡ linked.now }
    requires found { store.now.run.lost ≡ false }
    requires taken { IsTaken linked.now store.now.run }
    ensures { IfOk result (λ m. IsHolding linked.now (state_at (set_course linked.now) store.now.run) m) }
{
    linked.links();
    linked.has_few_pages();
    linked.hosts_have_integers();
    store.holds_bytes();
    linked_sets_never_get_stuck();
    linked_sets_keep();
    merged_modules_are_formed();
    parts_can_be_held();
    let behind = read_behind(alloc, linked, store)?;
    let Ok(parts) = parts(alloc, linked) else {
        drop(behind);
        return Err(Memory);
    };
    let module = made(alloc, linked, store, &behind, parts);
    drop(behind);
    module
}

/// The bytes of the module that holds the state at which a run stands.
pub(crate) fn written(alloc: Global, linked: &Linked, store: &Store) -> Result<Vec<u8>, SnapFault>
    requires same { store.now.linked ≡ linked.now }
    requires found { store.now.run.lost ≡ false }
    requires taken { IsTaken linked.now store.now.run }
    ensures spelled { IfOk result (λ bytes. IsSpelled linked.now (state_at (set_course linked.now) store.now.run) bytes.items) }
    ensures tells { IfErr result (λ fault. WriteTells linked.now (state_at (set_course linked.now) store.now.run) fault) }
    ensures only_long { TellsLong linked.now (state_at (set_course linked.now) store.now.run) result }
{
    linked.links();
    written_contents_are_one();
    let module = holding(alloc, linked, store)?;
    let members = linked.members();
    let bytes = encoded(alloc, &module, members, store.memory(), store.tables());
    drop(module);
    bytes
}
