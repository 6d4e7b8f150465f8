// The segments of a member that is placed.
ghost use Rattle.std.specs.Prelude.{◌≡◌, ◌<◌};
ghost use Rattle.spec_loading.specs.spec_runtime.Memories.{initialized};
ghost use Rattle.spec_loading.specs.spec_runtime.Tables.{entries_initialized};
ghost use Rattle.spec_loading.specs.spec_execution.Segments.{elem_applied, data_applied};
ghost use Rattle.spec_loading.specs.Members.{set_instances};
ghost use Rattle.dyl_store.specs.Placements.{Moves, Performs};

use crate::world::World;
use wasm_form::{Ref, Trap};
use wasm_space::{Slots, Space};

// Writes the first `n` entries of a segment to a table, from an index on, and drops the segment.
fn move_entries(
    entries: &mut Vec<Option<Ref>>,
    n: u32,
    table: &mut Slots,
    at: u32,
) -> Result<(), Trap>
    ensures { Moves Trap.TableBounds (entries_initialized table.old at entries.old.items 0 n) (table.old, entries.old.items) result (table.new, entries.new.items) }
{
    table.init(at, entries, 0, n)?;
    entries.clear();
    Ok(())
}

// Writes the first `n` bytes of a segment to the memory, from an address on, and drops the segment.
fn move_bytes(bytes: &mut &[u8], n: u32, memory: &mut Space, at: u32) -> Result<(), Trap>
    ensures { Moves Trap.MemoryBounds (initialized memory.old at bytes.old.now 0 n) (memory.old, bytes.old.now) result (memory.new, bytes.new.now) }
{
    memory.init(at, bytes, 0, n)?;
    *bytes = &[];
    Ok(())
}

impl<'m> World<'m> {
    // An element segment of a member: its first `n` entries are written to a table, from an index on, and it is dropped.
    pub fn apply_elem(&mut self, m: u32, e: u32, t: u32, n: u32, at: u32) -> Result<(), Trap>
        requires table { t < ((set_instances self.old.linked).counts m).tables }
        requires elem { e < ((set_instances self.old.linked).counts m).elems }
        ensures performed { Performs m (elem_applied e t n at) self.old result self.new }
        ensures linked { self.new.linked ≡ self.old.linked }
    {
        let table = self.table_address(m, t);
        let segment = self.elem_address(m, e);
        move_entries(&mut self.elems[segment], n, &mut self.tables[table], at)
    }

    // A data segment of a member: its first `n` bytes are written to the memory, from an address on, and it is dropped.
    pub fn apply_data(&mut self, m: u32, d: u32, n: u32, at: u32) -> Result<(), Trap>
        requires data { d < ((set_instances self.old.linked).counts m).datas }
        ensures performed { Performs m (data_applied d n at) self.old result self.new }
        ensures linked { self.new.linked ≡ self.old.linked }
    {
        let segment = self.data_address(m, d);
        move_bytes(&mut self.datas[segment], n, &mut self.memory, at)
    }
}
