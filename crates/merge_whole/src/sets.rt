// The bytes of the merged module of a linked set.
ghost use Rattle.std.specs.Prelude.{◌≡◌, ◌+◌, ◌*◌, ◌^◌, ◌≤◌, ◌<◌, ◌⊎◌, ◌↔◌, ℕ, min, All, IfOk, OnOk, Err, IsTrue, length};
ghost use Rattle.spec_merging.specs.declared.fault.MergeFault.TheVariants as faults;
ghost use Rattle.spec_reading.specs.spec_binary.Number.{IsShortest};
ghost use Rattle.spec_reading.specs.spec_binary.Modules.{SpellsModule};
ghost use Rattle.spec_reading.specs.spec_binary.WellFormed.{IsFormedType, IsWellFormed};
ghost use Rattle.wasm_encode.specs.SectionSizes.{IsFirstTooLong};
ghost use Rattle.wasm_encode.specs.Weight.{weight};
ghost use Rattle.merge_module.specs.MergedModule.{added_types, merged_module};
ghost use Rattle.merge_module.specs.Laws.{types_bulk};
ghost use Rattle.merge_whole.specs.Counts.{members_of, sizes};
ghost use Rattle.merge_whole.specs.Merges.{Merges, IsTooLongFor, bulk_of, bulk};

use crate::making::parts;
use dyl_link::Linked;
use dyl_link::dyl_search::Member;
use merge_module::{merged_modules_are_formed, spelled_modules_merge};
use spec_merging::MergeFault;
use spec_reading::bytes_spell_one_module;
use std::alloc::Global;
use wasm_encode::{EncodeFault, encode};
use wasm_form::{FuncType, Memory, Module};

// A set that has so many bytes of files and of names is big, however many members it has.
const MANY: u64 = 16_777_216;

// The bulk from which on a set is big.
const BIG: u64 = 4_294_967_296;

// A sum, or the bound where it is more.
fn capped(size: u64, more: u64) -> u64
    ensures { result ≡ min (size + more) 16777216 }
{
    let sum = size.saturating_add(more);
    if sum > MANY { MANY } else { sum }
}

// The bytes of files and of names, or the bound where there are more.
fn capped_size(members: &[Member]) -> u64
    ensures is { result ≡ min (sizes (members_of members.now)) 16777216 }
    ensures few { result ≤ 16777216 }
{
    let mut size: u64 = 0;
    for member in members {
        let named = capped(size, member.name.as_str().len() as u64);
        let all = capped(named, u64::from(member.size));
        size = all;
    }
    size
}

#[tactic(auto, using(crate::proofs::Little::square_few))]
fn square(count: u64) -> u64
    requires { count ≤ 256 }
    ensures is { result ≡ count ^ 2 }
    ensures few { result ≤ 65536 }
{
    count.pow(2)
}

/// How much there is of members, of which there are at most 256: their bulk, or 4,294,967,296 where it is more.
pub fn capped_bulk(members: &[Member]) -> u64
    requires { length members.now ≤ 256 }
    ensures { result ≡ min (bulk_of (members_of members.now)) 4294967296 }
{
    let size = capped_size(members);
    let square = square(members.len() as u64);
    let bulk = 256 * size + 64 * square;
    if bulk > BIG { BIG } else { bulk }
}

// Whether there is so much of a set that a section of its merged module may be too long.
fn is_big(members: &[Member]) -> bool
    requires { length members.now ≤ 256 }
    ensures { IsTrue result ↔ (2 ^ 32 ≤ bulk_of (members_of members.now)) }
{
    capped_bulk(members) >= BIG
}

fn check_type(ty: &FuncType) -> Result<(), Memory>
    ensures { OnOk result (IsFormedType ty.now) }
{
    if ty.params.items().len() > u32::MAX as usize {
        return Err(Memory);
    }
    if ty.results.items().len() > u32::MAX as usize {
        return Err(Memory);
    }
    Ok(())
}

/// Whether the types of a merged module can be written: only a host table may bring one that can't, with 2^32 parameters or results. Want of
/// memory stands for it.
pub fn check_types(types: &[FuncType]) -> Result<(), Memory>
    ensures { OnOk result (All IsFormedType types.now) }
{
    for ty in types {
        check_type(ty)?;
    }
    Ok(())
}

// The encoding of a merged module. Where there isn't so much of the set, only types that the host table alone brings can make a section
// too long, and want of memory stands for that.
fn encoded(alloc: Global, linked: &Linked, wasm: &Module) -> Result<Vec<u8>, MergeFault>
    requires formed { All IsFormedType wasm.now.types → IsWellFormed wasm.now }
    ensures formed { OnOk result (IsWellFormed wasm.now) }
    ensures shortest { IfOk result (λ bytes. IsShortest (SpellsModule wasm.now) bytes.items) }
    ensures size { IfOk result (λ bytes. length bytes.items ≤ 16 * weight wasm.now + 256) }
    ensures long { (id : ℕ) → result ≡ Err (faults.SectionSize id) → IsFirstTooLong wasm.now id }
    ensures big { (id : ℕ) → result ≡ Err (faults.SectionSize id) → 2 ^ 32 ≤ bulk linked.now }
    ensures only_long { (id : ℕ) → IsFirstTooLong wasm.now id → (result ≡ Err (faults.SectionSize id)) ⊎ (result ≡ Err faults.Memory) }
{
    linked.links();
    check_types(wasm.types.items())?;
    match encode(alloc, wasm) {
        Ok(bytes) => Ok(bytes),
        Err(EncodeFault::SectionSize { id }) => {
            if is_big(linked.members()) {
                Err(MergeFault::SectionSize { id })
            } else {
                Err(MergeFault::Memory)
            }
        }
        Err(EncodeFault::Memory) => Err(MergeFault::Memory),
    }
}

/// Merges a linked set. The bytes are the shortest that spell the module that `parts` gives: a valid module that imports the host functions of
/// the set alone, has the planned table and memory, exports its entry as `_start` and the memory as `memory`, and agrees with the loaded set.
/// How many they are is in line with the set.
///
/// `SectionSize` comes exactly where a section of that module would take 2^32 bytes or more, with the number of the first such section. No
/// set has one whose bulk is below 2^32, but for types that the host table alone brings: those of host functions that only `GOT.func` asks
/// for. Where these make a section too long, and where no memory could be had, comes `Memory`.
pub fn merge(alloc: Global, linked: &Linked) -> Result<Vec<u8>, MergeFault>
    ensures merged { IfOk result (λ bytes. Merges linked.now bytes.items) }
    ensures long { (id : ℕ) → result ≡ Err (faults.SectionSize id) → IsTooLongFor linked.now id }
    ensures only_long { (id : ℕ) → IsFirstTooLong (merged_module linked.now) id → (result ≡ Err (faults.SectionSize id)) ⊎ (result ≡ Err faults.Memory) }
    ensures little { (id : ℕ) → bulk linked.now < 2 ^ 32 → types_bulk (added_types linked.now) ≤ 33554432 → IsFirstTooLong (merged_module linked.now) id → ⊥ }
{
    linked.links();
    linked.has_few_pages();
    linked.hosts_have_integers();
    spelled_modules_merge();
    merged_modules_are_formed();
    bytes_spell_one_module();
    let parts = parts(alloc, linked)?;
    let bytes = encoded(alloc, linked, &parts.module);
    drop(parts);
    bytes
}
