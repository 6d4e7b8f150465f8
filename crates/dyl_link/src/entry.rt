// The faults that come before any placing.
ghost use Rattle.std.specs.Prelude.{◌≡◌, ◌≤◌, length, map, Some, IfOk};
ghost use Rattle.spec_loading.specs.spec_linking.Gathering.{IsSet};
ghost use Rattle.spec_loading.specs.spec_linking.LinkedSets.{LinkedSet};
ghost use Rattle.spec_loading.specs.spec_linking.Links as links;
ghost use Rattle.spec_loading.specs.spec_linking.Links.{◌or_else◌};
ghost use Rattle.dyl_slots.specs.dyl_search.Gathers.{member_of};
ghost use Rattle.dyl_slots.specs.dyl_imports.Kept.{AreImportsOf};
ghost use Rattle.dyl_link.specs.Answers.{Tells};

use crate::duplicates::duplicates;
use crate::members::members_fault;
use crate::own::entry_of;
use dyl_slots::dyl_imports::Imports;
use dyl_slots::dyl_scope::Symbols;
use dyl_slots::dyl_search::Member;
use spec_loading::spec_linking::LinkFault;
use std::alloc::Global;

// The entry of a set.
fn set_entry(members: &[Member]) -> Option<u32>
    ensures { result ≡ links.set_entry (map member_of members.now) }
{
    match members {
        [main, ..] => entry_of(&main.checked),
        [] => None,
    }
}

fn with_entry(members: &[Member]) -> Result<u32, LinkFault>
    ensures tells { Tells result (links.fault_without (links.set_entry (map member_of members.now))) }
    ensures entry { IfOk result (λ entry. links.set_entry (map member_of members.now) ≡ Some entry) }
{
    match set_entry(members) {
        Some(entry) => Ok(entry),
        None => Err(LinkFault::NoEntry),
    }
}

fn duplicate_fault(alloc: Global, no_duplicates: bool, imports: &Imports) -> Result<(), LinkFault>
    requires few { length imports.now.known.members.now ≤ 256 }
    ensures { (L : LinkedSet) → AreImportsOf L imports.now → IsSet L.set → no_duplicates ≡ L.options.no_duplicates → Tells result (links.duplicate_fault L) }
{
    if no_duplicates {
        duplicates(alloc, imports.symbols(), imports.members())
    } else {
        Ok(())
    }
}

// The entry of a set, where no member is at fault and no name is defined twice.
pub(crate) fn entry_without_fault(
    alloc: Global,
    no_duplicates: bool,
    imports: &Imports,
) -> Result<u32, LinkFault>
    requires few { length imports.now.known.members.now ≤ 256 }
    requires count { length imports.now.known.symbols.now.names ≡ length imports.now.known.members.now }
    ensures tells { (L : LinkedSet) → AreImportsOf L imports.now → IsSet L.set → no_duplicates ≡ L.options.no_duplicates → Tells result (links.members_fault L 0 L.set.members or_else (links.duplicate_fault L or_else links.fault_without (links.set_entry L.set.members))) }
    ensures entry { IfOk result (λ entry. links.set_entry (map member_of imports.now.known.members.now) ≡ Some entry) }
{
    members_fault(alloc, imports)?;
    duplicate_fault(alloc, no_duplicates, imports)?;
    with_entry(imports.members())
}
