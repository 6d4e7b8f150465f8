// Data segments.
ghost use Rattle.std.specs.Prelude.{◌≡◌, ◌≤◌, ◌<◌, ◌^◌, ◌++◌, [], length, map, IfOk, OnOk};
ghost use Rattle.snap_module.specs.Held.{passive_data};
ghost use Rattle.snap_parts.specs.Sections.{MemoryAlone, DatasHeld};

use crate::memory::{memory_gap, memory_pieces, put_memory};
use crate::room::has_room;
use spec_snapshots::written_contents_are_one;
use std::alloc::Global;
use wasm_form::{Data, DataMode, List, Memory};
use wasm_space::Space;

fn passive_data(alloc: Global, bytes: &[u8]) -> Result<Data, Memory>
    ensures { IfOk result (λ d. d ≡ passive_data bytes.now) }
{
    let bytes = Vec::from_slice(alloc, bytes)?;
    Ok(Data {
        mode: DataMode::Passive,
        bytes: List::of(bytes),
    })
}

fn put_passive(to: &mut Vec<Data>, alloc: Global, datas: &[&[u8]]) -> Result<(), Memory>
    ensures { OnOk result (to.new.items ≡ to.old.items ++ map passive_data (map (λ d. d.now) datas.now)) }
{
    for bytes in datas {
        to.push(passive_data(alloc, bytes)?)?;
    }
    Ok(())
}

// The segments of the memory.
fn memory_datas(alloc: Global, memory: &Space) -> Result<Vec<Data>, Memory>
    ensures written { IfOk result (λ v. MemoryAlone memory.now v.items) }
    ensures few { IfOk result (λ v. length v.items ≤ 65536) }
{
    written_contents_are_one();
    let gap = memory_gap(memory);
    let pieces = memory_pieces(alloc, memory, gap)?;
    let mut list = Vec::new(alloc);
    put_memory(&mut list, alloc, memory, &pieces)?;
    Ok(list)
}

/// The data segments of the module: those of the store, one that was applied when the merged module was opened, and those of the memory.
pub(crate) fn held_datas(
    alloc: Global,
    datas: &[&[u8]],
    memory: &Space,
) -> Result<List<Data>, Memory>
    ensures held { IfOk result (λ x. DatasHeld (map (λ d. d.now) datas.now) memory.now x) }
    ensures few { IfOk result (λ x. length x < 2 ^ 32) }
{
    has_room(datas.len())?;
    let mut written = memory_datas(alloc, memory)?;
    let mut list = Vec::new(alloc);
    put_passive(&mut list, alloc, datas)?;
    list.push(passive_data(alloc, &[])?)?;
    list.append(&mut written)?;
    Ok(List::of(list))
}
