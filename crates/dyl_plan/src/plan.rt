// Plans.
ghost use Rattle.std.specs.Prelude.{◌≡◌, ◌≤◌, ◌<◌, length, map, slice_get, Some, IfOk, All};
ghost use Rattle.spec_linking.specs.Plans as plans;
ghost use Rattle.dyl_plan.specs.Regions.{region_of, asked, HasAligns, TellsFault, ends_in, ends_fault};

use crate::ends::{aligned, bases_from, end_from};
use crate::region::{Region, Sizes, Space};
use spec_linking::PlanFault;
use std::alloc::Global;
use std::marker::Model;

// The memory below this address is not used.
const STACK_END: u64 = 1024;

// The bytes of the five error texts.
const TEXTS_SIZE: u64 = 101;

// The bytes of a page.
const PAGE_SIZE: u64 = 65_536;

/// Where the regions of members lie in the one memory and in the one table.
#[derive(Drop)]
pub struct Plan {
    stack_top: u32,
    bases: Vec<u32>,
    heap_base: u32,
    pages: u32,
    pages_max: u32,
    table_bases: Vec<u32>,
    table_end: u32,
}

impl Model for Plan {
    ghost use Rattle.spec_linking.specs.Plans as plans;

    ghost Value = { plans.Plan };

    ghost view = { λ p. record {
      stack_top = p.stack_top;
      bases = p.bases.items;
      heap_base = p.heap_base;
      pages = p.pages;
      pages_max = p.pages_max;
      table_bases = p.table_bases.items;
      table_end = p.table_end;
    } };
}

impl Plan {
    /// The address at which the memory region of member m begins.
    pub fn base(&self, m: u32) -> u32
        requires { m < length self.now.bases }
        ensures { slice_get self.now.bases m ≡ Some result }
    {
        self.bases.as_slice()[m as usize]
    }

    /// The index at which the table region of member m begins.
    pub fn table_base(&self, m: u32) -> u32
        requires { m < length self.now.table_bases }
        ensures { slice_get self.now.table_bases m ≡ Some result }
    {
        self.table_bases.as_slice()[m as usize]
    }

    /// The upper end of the stack, at which the stack pointer begins.
    pub fn stack_top(&self) -> u32
        ensures { result ≡ self.now.stack_top }
    {
        self.stack_top
    }

    /// The address of the error texts, which follow the stack.
    pub fn texts(&self) -> u32
        ensures { result ≡ self.now.stack_top }
    {
        self.stack_top
    }

    /// The end of the memory regions, rounded up to a multiple of 16.
    pub fn heap_base(&self) -> u32
        ensures { result ≡ self.now.heap_base }
    {
        self.heap_base
    }

    /// The initial pages of memory.
    pub fn pages(&self) -> u32
        ensures { result ≡ self.now.pages }
    {
        self.pages
    }

    /// The most pages of memory.
    pub fn pages_max(&self) -> u32
        ensures { result ≡ self.now.pages_max }
    {
        self.pages_max
    }

    /// The end of the table regions.
    pub fn table_end(&self) -> u32
        ensures { result ≡ self.now.table_end }
    {
        self.table_end
    }
}

// What regions come to: the upper end of the stack, the end of the memory regions, the pages, and the end of the table regions.
#[derive(Clone, Copy)]
pub(crate) struct Ends {
    stack_top: u64,
    heap_base: u64,
    pages: u64,
    table_end: u64,
}

fn ends_of(regions: &[Region], sizes: &Sizes) -> Ends
    requires few { length regions.now ≤ 256 }
    requires aligns { All HasAligns regions.now }
    ensures ends { result ≡ ends_in (plans.placed (map region_of regions.now) (asked sizes.now)) }
    ensures above { result.stack_top ≤ result.heap_base }
{
    let stack_top = STACK_END + sizes.stack as u64;
    let heap_base = aligned(end_from(regions, Space::Memory, stack_top + TEXTS_SIZE), 4);
    let pages = (heap_base + (PAGE_SIZE - 1)) / PAGE_SIZE;
    Ends {
        stack_top,
        heap_base,
        pages: pages.max(sizes.pages_min as u64),
        table_end: end_from(regions, Space::Table, 1),
    }
}

// That the regions fit into the memory and into the table.
fn fits(ends: Ends, sizes: &Sizes) -> Result<(), PlanFault>
    ensures fault { TellsFault result (ends_fault ends (asked sizes.now)) }
    ensures pages { IfOk result (λ done. ends.pages ≤ sizes.now.pages_max) }
    ensures entries { IfOk result (λ done. ends.table_end ≤ sizes.now.table_max) }
{
    if ends.pages > sizes.pages_max as u64 {
        return Err(PlanFault::MemoryLimit {
            pages: ends.pages,
            max: sizes.pages_max,
        });
    }
    let entries = ends.table_end.max(sizes.table_min as u64);
    if entries > sizes.table_max as u64 {
        return Err(PlanFault::TableLimit {
            entries,
            max: sizes.table_max,
        });
    }
    Ok(())
}

/// Places regions one after the other, in memory behind the stack and the error texts, in the table behind the null at index 0.
///
/// MemoryLimit comes exactly where the initial pages are above the most; then TableLimit, exactly where the end of the table regions, or the
/// least number of entries, is above the most. Memory comes only where no memory could be had.
pub fn place(alloc: Global, regions: &[Region], sizes: &Sizes) -> Result<Plan, PlanFault>
    requires few { length regions.now ≤ 256 }
    requires aligns { All HasAligns regions.now }
    requires pages { sizes.now.pages_max ≤ 16384 }
    requires entries { sizes.now.table_max ≤ 983040 }
    ensures plan { IfOk result (λ p. p ≡ plans.placed (map region_of regions.now) (asked sizes.now)) }
    ensures count { IfOk result (λ p. length p.bases ≡ length regions.now) }
    ensures table_count { IfOk result (λ p. length p.table_bases ≡ length regions.now) }
    ensures fault { TellsFault result (plans.plan_fault (map region_of regions.now) (asked sizes.now)) }
{
    let ends = ends_of(regions, sizes);
    fits(ends, sizes)?;
    let bases = bases_from(alloc, regions, Space::Memory, ends.stack_top + TEXTS_SIZE)?;
    let table_bases = bases_from(alloc, regions, Space::Table, 1)?;
    Ok(Plan {
        stack_top: ends.stack_top as u32,
        bases,
        heap_base: ends.heap_base as u32,
        pages: ends.pages as u32,
        pages_max: sizes.pages_max,
        table_bases,
        table_end: ends.table_end as u32,
    })
}
