// The plan of a set's regions in memory and in the table, or the limit that it passes.
ghost use Rattle.std.specs.Prelude.{◌≡◌, ◌≤◌, IfOk};
ghost use Rattle.spec_loading.specs.spec_linking.Gathering.{IsSet};
ghost use Rattle.spec_loading.specs.spec_linking.Plans as plans;
ghost use Rattle.dyl_slots.specs.dyl_search.Gathers.{set_of};
ghost use Rattle.dyl_slots.specs.dyl_plan.Regions.{asked};
ghost use Rattle.dyl_link.specs.Answers.{Tells};
ghost use Rattle.dyl_link.specs.Limits.{limit_of, regions_fault};
ghost use Rattle.dyl_link.specs.Sets.{options_of};

use crate::options::LinkOptions;
use crate::sizes::regions_of;
use dyl_slots::dyl_plan::{Plan, Sizes, place};
use dyl_slots::dyl_search::ClosedSet;
use spec_loading::spec_linking::{LinkFault, PlanFault};
use std::alloc::Global;

fn limit_of(fault: PlanFault) -> LinkFault
    ensures { result ≡ limit_of fault }
{
    match fault {
        PlanFault::MemoryLimit { pages, max } => LinkFault::MemoryLimit { pages, max },
        PlanFault::TableLimit { entries, max } => LinkFault::TableLimit { entries, max },
        PlanFault::Memory => LinkFault::Memory,
    }
}

// Places the regions of a set that asks for these sizes.
pub(crate) fn plan_of(
    alloc: Global,
    set: &ClosedSet,
    o: &LinkOptions,
    sizes: &Sizes,
) -> Result<Plan, LinkFault>
    requires shape { IsSet (set_of set.now) }
    requires asked { asked sizes.now ≡ plans.sizes_of (set_of set.now) (options_of o.now) }
    requires pages { sizes.now.pages_max ≤ 16384 }
    requires entries { sizes.now.table_max ≤ 983040 }
    ensures tells { Tells result (regions_fault (set_of set.now) (options_of o.now)) }
    ensures plan { IfOk result (λ p. p ≡ plans.plan_of (set_of set.now) (options_of o.now)) }
{
    let _o = o;
    let regions = regions_of(alloc, set.members.items())?;
    match place(alloc, &regions, sizes) {
        Ok(plan) => Ok(plan),
        Err(fault) => Err(limit_of(fault)),
    }
}
