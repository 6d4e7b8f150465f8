// The sizes that a set asks for.
ghost use Rattle.std.specs.Prelude.{◌≡◌, ◌≤◌, map, IfOk};
ghost use Rattle.std.specs.List.{flat_map};
ghost use Rattle.spec_loading.specs.spec_linking.Plans as plans;
ghost use Rattle.dyl_slots.specs.dyl_section.Recorded.{record_of};
ghost use Rattle.dyl_slots.specs.dyl_search.Gathers.{set_of, member_of};
ghost use Rattle.dyl_slots.specs.dyl_plan.Regions.{region_of, asked};
ghost use Rattle.dyl_link.specs.Bounds.{limits_as, listed, with_limits, all_limits};
ghost use Rattle.dyl_link.specs.Sets.{options_of};

use crate::options::LinkOptions;
use dyl_slots::dyl_imports::{Use, use_of};
use dyl_slots::dyl_plan::{Region, Sizes};
use dyl_slots::dyl_search::{ClosedSet, Member};
use dyl_slots::dyl_section::Dylink;
use std::alloc::Global;
use wasm_form::{Import, ImportDesc, Limits, Memory};

// The most entries that the planned table has.
const MOST_TABLE: u32 = 983_040;

// What all members share.
#[derive(Clone, Copy)]
pub(crate) enum Shared {
    Memory,
    Table,
}

// The least size and the greatest.
#[derive(Clone, Copy)]
pub(crate) struct Bounds {
    min: u32,
    max: u32,
}

// The limits that an import of what is shared declares.
fn limits_in(shared: Shared, i: &Import) -> Option<Limits>
    ensures { listed result ≡ limits_as shared i.now }
{
    match (shared, i.desc) {
        (Shared::Memory, ImportDesc::Space(limits)) => match use_of(i) {
            Use::SharedMemory => Some(limits),
            _ => None,
        },
        (Shared::Table, ImportDesc::Table(ty)) => match use_of(i) {
            Use::SharedTable => Some(ty.limits),
            _ => None,
        },
        _ => None,
    }
}

fn bounded(b: Bounds, limits: Limits) -> Bounds
    ensures { result ≡ with_limits b limits }
{
    Bounds {
        min: b.min.max(limits.min),
        max: match limits.max {
            Some(max) => b.max.min(max),
            None => b.max,
        },
    }
}

// With the limits that imports declare.
fn bounds_by(shared: Shared, b: Bounds, imports: &[Import]) -> Bounds
    ensures { result ≡ all_limits b (flat_map (limits_as shared) imports.now) }
{
    let mut bounds = b;
    for i in imports {
        match limits_in(shared, i) {
            Some(limits) => bounds = bounded(bounds, limits),
            None => {}
        }
    }
    bounds
}

// The least size and the greatest of what is shared, where there may be at most so much.
fn bounds_of(shared: Shared, most: u32, members: &[Member]) -> Bounds
    ensures { result ≡ all_limits (record { min = 0; max = most }) (plans.limits_in (limits_as shared) (map member_of members.now)) }
{
    let mut bounds = Bounds { min: 0, max: most };
    for member in members {
        bounds = bounds_by(shared, bounds, member.checked.module().imports.items());
    }
    bounds
}

// The sizes that a set asks for.
pub(crate) fn sizes_of(set: &ClosedSet, o: &LinkOptions) -> Sizes
    requires { o.now.stack ≤ 16777216 }
    ensures sizes { asked result ≡ plans.sizes_of (set_of set.now) (options_of o.now) }
    ensures pages { result.pages_max ≤ o.now.pages }
    ensures entries { result.table_max ≤ 983040 }
{
    let memory = bounds_of(Shared::Memory, o.pages, set.members.items());
    let table = bounds_of(Shared::Table, MOST_TABLE, set.members.items());
    Sizes {
        stack: (o.stack + 15) / 16 * 16,
        pages_min: memory.min,
        pages_max: memory.max,
        table_min: table.min,
        table_max: table.max,
    }
}

fn region_of(d: &Dylink) -> Region
    ensures { region_of result ≡ plans.region_of (record_of d.now) }
{
    Region {
        mem_size: d.mem_size,
        mem_align: d.mem_align,
        table_size: d.table_size,
        table_align: d.table_align,
    }
}

// The regions of members.
pub(crate) fn regions_of(alloc: Global, members: &[Member]) -> Result<Vec<Region>, Memory>
    ensures { IfOk result (λ regions. map region_of regions.items ≡ plans.regions_of (map member_of members.now)) }
{
    let mut regions = Vec::new(alloc);
    for member in members {
        regions.push(region_of(&member.dylink))?;
    }
    Ok(regions)
}
