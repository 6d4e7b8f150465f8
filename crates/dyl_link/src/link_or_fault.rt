// Links a set, or gives its first link fault.
ghost use Rattle.std.specs.Prelude.{◌≡◌, ◌≤◌, length, IfOk, IfErr, None};
ghost use Rattle.spec_loading.specs.spec_linking.Gathering.{IsSet};
ghost use Rattle.spec_loading.specs.spec_linking.Links.{Links, link_fault};
ghost use Rattle.spec_loading.specs.spec_linking.declared.fault.LinkFault.TheVariants as faults;
ghost use Rattle.dyl_slots.specs.dyl_search.Gathers.{set_of};
ghost use Rattle.dyl_link.specs.Answers.{IsFirst, Tells};
ghost use Rattle.dyl_link.specs.Sets.{linked_set};
ghost use Rattle.dyl_link.specs.Parts.{IsReady};

use crate::entry_and_layout::found_of;
use crate::linked_set::{Linked, LoaderTypes, Ready};
use crate::options::LinkOptions;
use crate::symbols::symbols_of;
use dyl_slots::dyl_search::ClosedSet;
use dyl_slots::host_table::HostNames;
use spec_loading::spec_linking::LinkFault;
use std::alloc::Global;

/// Why a set doesn't link, and the set.
#[derive(Drop)]
pub struct LinkRefused {
    pub fault: LinkFault,
    pub set: ClosedSet,
}

// The first link fault, or else what is found of a set that links.
fn first_fault(
    alloc: Global,
    set: &ClosedSet,
    o: &LinkOptions,
    hosts: &HostNames,
) -> Result<Ready, LinkFault>
    requires shape { IsSet (set_of set.now) }
    requires few { length set.now.members ≤ 256 }
    requires pages { o.now.pages ≤ 16384 }
    requires stack { o.now.stack ≤ 16777216 }
    ensures tells { Tells result (link_fault (linked_set set.now o.now hosts.now)) }
    ensures ready { IfOk result (λ r. IsReady (linked_set set.now o.now hosts.now) r) }
{
    let symbols = symbols_of(alloc, set.members.items())?;
    let types = LoaderTypes::of(alloc)?;
    let found = found_of(alloc, set, o, &symbols, hosts)?;
    Ok(Ready {
        symbols,
        types,
        found,
    })
}

// What is found of a set that links, with a copy of the names that it is linked over, or the first link fault.
fn found_over(
    alloc: Global,
    set: &ClosedSet,
    o: &LinkOptions,
    hosts: &HostNames,
) -> Result<(HostNames, Ready), LinkFault>
    requires shape { IsSet (set_of set.now) }
    requires few { length set.now.members ≤ 256 }
    requires pages { o.now.pages ≤ 16384 }
    requires stack { o.now.stack ≤ 16777216 }
    ensures tells { Tells result (link_fault (linked_set set.now o.now hosts.now)) }
    ensures names { IfOk result (λ r. r.0 ≡ hosts.now) }
    ensures ready { IfOk result (λ r. IsReady (linked_set set.now o.now hosts.now) r.1) }
{
    let names = hosts.copied(alloc)?;
    match first_fault(alloc, set, o, hosts) {
        Ok(ready) => Ok((names, ready)),
        Err(fault) => {
            drop(names);
            Err(fault)
        }
    }
}

/// Links a closed set over the host functions that are declared, whose names it keeps.
///
/// It is linked exactly where it has no link fault; else the first one is answered, and the set given back. Memory comes only where no memory
/// could be had.
pub fn link(
    alloc: Global,
    set: ClosedSet,
    o: &LinkOptions,
    hosts: &HostNames,
) -> Result<Linked, LinkRefused>
    requires shape { IsSet (set_of set) }
    requires pages { o.now.pages ≤ 16384 }
    requires stack { o.now.stack ≤ 16777216 }
    ensures linked { IfOk result (λ linked. linked ≡ linked_set set o.now hosts.now) }
    ensures links { IfOk result (λ linked. Links linked) }
    ensures first { IfErr result (λ refused. IsFirst refused.fault (link_fault (linked_set set o.now hosts.now))) }
    ensures complete { link_fault (linked_set set o.now hosts.now) ≡ None → IfErr result (λ refused. refused.fault ≡ faults.Memory) }
    ensures back { IfErr result (λ refused. refused.set ≡ set) }
{
    hosts.integers();
    match found_over(alloc, &set, o, hosts) {
        Ok((names, ready)) => Ok(Linked::of(set, *o, names, ready)),
        Err(fault) => Err(LinkRefused { fault, set }),
    }
}
