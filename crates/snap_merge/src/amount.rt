// How much there is to be written of a state.
ghost use Rattle.std.specs.Prelude.{◌≡◌, ◌+◌, ◌≤◌, ◌^◌, ◌↔◌, length, min, sum_by, IsTrue};
ghost use Rattle.merge_whole.specs.Counts.{members_of};
ghost use Rattle.spec_snapshots.specs.Stretches.{entries};
ghost use Rattle.snap_merge.specs.Written.{amount_of};

use dyl_link::dyl_search::Member;
use merge_whole::capped_bulk;
use wasm_space::{Slots, Space};

// What is as much as this is much.
const MUCH: u64 = 4_294_967_296;

// The bytes of a page.
const PAGE: u64 = 65_536;

// A sum, or the bound where it is more.
fn capped(size: u64, more: u64) -> u64
    ensures { result ≡ min (size + more) 4294967296 }
{
    let sum = size.saturating_add(more);
    if sum > MUCH { MUCH } else { sum }
}

// The entries of all tables, or the bound where there are more.
#[tactic(auto, using(crate::proofs::Places::entries_next, crate::proofs::Places::entries_end))]
fn capped_entries(tables: &[Slots]) -> u64
    ensures is { result ≡ min (sum_by entries tables.now) 4294967296 }
    ensures few { result ≤ 4294967296 }
{
    let mut all: u64 = 0;
    for table in tables {
        let sum = capped(all, u64::from(table.size()));
        all = sum;
    }
    all
}

/// Whether there is so much to be written that a section may be too long.
pub(crate) fn is_much(members: &[Member], memory: &Space, tables: &[Slots]) -> bool
    requires { length members.now ≤ 256 }
    ensures { IsTrue result ↔ (2 ^ 32 ≤ amount_of (members_of members.now) memory.now tables.now) }
{
    let bulk = capped_bulk(members);
    let entries = capped_entries(tables);
    let bytes = u64::from(memory.size()) * PAGE;
    2 * bulk + bytes + 8 * entries >= MUCH
}
