// The entry of a set without a fault, its layout, and the host functions that its members import.
ghost use Rattle.std.specs.Prelude.{◌≡◌, ◌≤◌, length, Some, IfOk};
ghost use Rattle.spec_loading.specs.spec_linking.Gathering.{IsSet};
ghost use Rattle.spec_loading.specs.spec_linking.LinkedSets.{LinkedSet};
ghost use Rattle.spec_loading.specs.spec_linking.Links as links;
ghost use Rattle.dyl_slots.specs.dyl_search.Gathers.{set_of};
ghost use Rattle.dyl_slots.specs.dyl_scope.Scopes.{AreOf};
ghost use Rattle.dyl_link.specs.Answers.{Tells};
ghost use Rattle.dyl_link.specs.Sets.{linked_set};
ghost use Rattle.dyl_link.specs.Steps.{IsOver, IsPlacedOf, IsFoundOf};

use crate::entry::entry_without_fault;
use crate::layout::{Placed, placed_of};
use crate::options::LinkOptions;
use dyl_slots::dyl_imports::Imports;
use dyl_slots::dyl_scope::Symbols;
use dyl_slots::dyl_search::ClosedSet;
use dyl_slots::host_table::{HostName, HostNames};
use spec_loading::spec_linking::LinkFault;
use std::alloc::Global;

// The entry, where the regions lie, whether a member imports a function of the loader, and the host functions that the members import.
#[derive(Drop)]
pub(crate) struct Found {
    pub entry: u32,
    pub placed: Placed,
    pub uses_loader: bool,
    pub hosts: Vec<HostName>,
}

// The entry of a set, and where its regions lie.
fn entered(
    alloc: Global,
    set: &ClosedSet,
    o: &LinkOptions,
    imports: &Imports,
) -> Result<(u32, Placed), LinkFault>
    requires few { length imports.now.known.members.now ≤ 256 }
    requires names { length imports.now.known.symbols.now.names ≡ length imports.now.known.members.now }
    requires over { (L : LinkedSet) × IsOver L set.now o.now imports.now }
    requires pages { o.now.pages ≤ 16384 }
    requires stack { o.now.stack ≤ 16777216 }
    ensures tells { (L : LinkedSet) → IsOver L set.now o.now imports.now → Tells result (links.link_fault L) }
    ensures entry { IfOk result (λ e. (L : LinkedSet) → IsOver L set.now o.now imports.now → links.set_entry L.set.members ≡ Some e.0) }
    ensures placed { IfOk result (λ e. (L : LinkedSet) → IsOver L set.now o.now imports.now → IsPlacedOf L e.1) }
{
    let entry = entry_without_fault(alloc, o.no_duplicates, imports)?;
    let placed = placed_of(alloc, set, o, imports)?;
    Ok((entry, placed))
}

// What is found of a set over the names that its members define, and the host functions that are declared.
pub(crate) fn found_of(
    alloc: Global,
    set: &ClosedSet,
    o: &LinkOptions,
    symbols: &Symbols,
    hosts: &HostNames,
) -> Result<Found, LinkFault>
    requires shape { IsSet (set_of set.now) }
    requires few { length set.now.members ≤ 256 }
    requires names { length symbols.now.names ≡ length set.now.members }
    requires symbols { AreOf (set_of set.now) symbols.now }
    requires pages { o.now.pages ≤ 16384 }
    requires stack { o.now.stack ≤ 16777216 }
    ensures tells { Tells result (links.link_fault (linked_set set.now o.now hosts.now)) }
    ensures exact { IfOk result (λ f. IsFoundOf (linked_set set.now o.now hosts.now) f) }
{
    let imports = Imports::of(alloc, set.members.items(), symbols, hosts)?;
    let found = entered(alloc, set, o, &imports)?;
    let (entry, placed) = found;
    let uses_loader = imports.uses_loader();
    Ok(Found {
        entry,
        placed,
        uses_loader,
        hosts: imports.into_hosts(),
    })
}
