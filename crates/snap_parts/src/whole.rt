// The module that holds what a run has.
ghost use Rattle.std.specs.Prelude.{IfOk, OnOk};
ghost use Rattle.merge_index.specs.Kept.{numbers_in};
ghost use Rattle.snap_parts.specs.Built.{store_in, IsBuilt};
ghost use Rattle.snap_parts.specs.Made.{WithGlobals, WithTables, WithMemory, WithExports, WithElems, WithDatas};

use crate::datas::held_datas;
use crate::elems::{all_left, held_elems};
use crate::given::{Added, Flat};
use crate::globals::{entry_exports, held_globals, held_memories, held_tables};
use merge_index::Numbers;
use std::alloc::Global;
use wasm_form::{Memory, Module};
use wasm_space::Space;

fn put_globals(
    to: &mut Module,
    alloc: Global,
    numbers: &Numbers,
    flat: Flat<'_>,
    added: Added<'_>,
) -> Result<(), Memory>
    ensures { OnOk result (WithGlobals (numbers_in numbers.now) (store_in flat.entry) added.entry to.old to.new) }
{
    let globals = held_globals(
        alloc,
        numbers,
        to.globals.items(),
        flat.globals,
        added.globals,
    )?;
    to.globals = globals;
    Ok(())
}

fn put_tables(to: &mut Module, alloc: Global, flat: Flat<'_>) -> Result<(), Memory>
    ensures { OnOk result (WithTables (store_in flat.entry) to.old to.new) }
{
    let tables = held_tables(alloc, to.tables.items(), flat.tables)?;
    to.tables = tables;
    Ok(())
}

fn put_memory(to: &mut Module, alloc: Global, memory: &Space) -> Result<(), Memory>
    ensures { OnOk result (WithMemory memory.now to.old to.new) }
{
    let memories = held_memories(alloc, to.memories.items(), memory)?;
    to.memories = memories;
    Ok(())
}

fn put_exports(to: &mut Module, alloc: Global, entry: u32) -> Result<(), Memory>
    ensures { OnOk result (WithExports entry to.old to.new) }
{
    let exports = entry_exports(alloc, entry)?;
    to.exports = exports;
    to.start = None;
    Ok(())
}

fn put_elems(
    to: &mut Module,
    alloc: Global,
    numbers: &Numbers,
    flat: Flat<'_>,
    added: Added<'_>,
) -> Result<(), Memory>
    ensures { OnOk result (WithElems (numbers_in numbers.now) (store_in flat.entry) added.entry to.old to.new) }
{
    let left = all_left(alloc, flat.elems, added.left)?;
    let elems = held_elems(alloc, numbers, to, &left, flat.tables)?;
    to.elems = elems;
    Ok(())
}

fn put_datas(to: &mut Module, alloc: Global, flat: Flat<'_>, memory: &Space) -> Result<(), Memory>
    ensures { OnOk result (WithDatas (store_in flat.entry) memory.now to.old to.new) }
{
    let datas = held_datas(alloc, flat.datas, memory)?;
    let count = datas.items().len() as u32;
    to.datas = datas;
    to.data_count = Some(count);
    Ok(())
}

// All that is another than in the merged module.
fn put_all(
    to: &mut Module,
    alloc: Global,
    entry: u32,
    numbers: &Numbers,
    flat: Flat<'_>,
    added: Added<'_>,
    memory: &Space,
) -> Result<(), Memory>
    ensures { OnOk result (IsBuilt to.old entry (numbers_in numbers.now) (store_in flat.entry) added.entry memory.now to.new) }
{
    put_globals(to, alloc, numbers, flat, added)?;
    put_tables(to, alloc, flat)?;
    put_memory(to, alloc, memory)?;
    put_exports(to, alloc, entry)?;
    put_elems(to, alloc, numbers, flat, added)?;
    put_datas(to, alloc, flat, memory)?;
    Ok(())
}

/// The module that holds what a run has, by the merged module and the numbers of the set, with the number of the function that it begins with.
///
/// Globals begin with their values, and the tables and the memory with their sizes. Segments keep their numbers, and those that were dropped are
/// empty; behind them come active ones that write the tables and the memory, and one that names each function. `Memory` where no memory could
/// be had; it stands too for more items of a kind than numbers of 32 bits, and for the value of an i32 that has no room in one.
pub fn held(
    alloc: Global,
    merged: Module,
    entry: u32,
    numbers: &Numbers,
    flat: Flat<'_>,
    added: Added<'_>,
    memory: &Space,
) -> Result<Module, Memory>
    ensures { IfOk result (λ m. IsBuilt merged entry (numbers_in numbers.now) (store_in flat.entry) added.entry memory.now m) }
{
    let mut wasm = merged;
    match put_all(&mut wasm, alloc, entry, numbers, flat, added, memory) {
        Ok(()) => Ok(wasm),
        Err(memory) => {
            drop(wasm);
            Err(memory)
        }
    }
}
