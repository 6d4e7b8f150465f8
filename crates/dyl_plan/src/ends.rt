// Where regions lie, one after the other. A region adds less than 2^33 to the end, so that no sum passes 64 bits.
ghost use Rattle.std.specs.Prelude.{◌≡◌, ◌≤◌, ◌+◌, ◌*◌, ◌^◌, ◌<◌, length, map, IfOk, All};
ghost use Rattle.spec_linking.specs.Plans.{rounded_up, bases, end_of};
ghost use Rattle.dyl_plan.specs.Regions.{region_of, size_in, align_in, HasAligns};

use crate::region::{Region, Space};
use spec_linking::wasm_form::Memory;
use std::alloc::Global;

// The least multiple of a power of two that is no less than a number.
pub(crate) fn aligned(end: u64, align: u32) -> u64
    requires align { align ≤ 31 }
    requires small { end ≤ 2 ^ 62 }
    ensures value { result ≡ rounded_up (2 ^ align) end }
    ensures above { end ≤ result }
    ensures near { result ≤ end + 2 ^ 31 }
{
    let unit = 1u64 << align;
    (end + (unit - 1)) / unit * unit
}

// The end of the last region, of those that lie in a space from `start` on.
pub(crate) fn end_from(regions: &[Region], space: Space, start: u64) -> u64
    requires few { length regions.now ≤ 256 }
    requires aligns { All HasAligns regions.now }
    requires start { start ≤ 2 ^ 40 }
    ensures value { result ≡ end_of (size_in space) (align_in space) start (map region_of regions.now) }
    ensures above { start ≤ result }
    ensures small { result ≤ 2 ^ 42 }
{
    let mut end = start;
    for region in regions {
        end = aligned(end, region.align(space)) + region.size(space) as u64;
    }
    end
}

// The bases of the regions that lie in a space from `start` on.
pub(crate) fn bases_from(
    alloc: Global,
    regions: &[Region],
    space: Space,
    start: u64,
) -> Result<Vec<u32>, Memory>
    requires few { length regions.now ≤ 256 }
    requires aligns { All HasAligns regions.now }
    requires small { end_of (size_in space) (align_in space) start (map region_of regions.now) < 2 ^ 32 }
    ensures { IfOk result (λ v. v.items ≡ bases (size_in space) (align_in space) start (map region_of regions.now)) }
{
    let mut bases = Vec::new(alloc);
    let mut end = start;
    for region in regions {
        let base = aligned(end, region.align(space));
        bases.push(base as u32)?;
        end = base + region.size(space) as u64;
    }
    Ok(bases)
}
