// The names that the members of a set define.
ghost use Rattle.std.specs.Prelude.{◌≡◌, ◌≤◌, length, map, IfOk};
ghost use Rattle.spec_loading.specs.spec_linking.Sets.{ClosedSet};
ghost use Rattle.spec_loading.specs.spec_linking.Gathering.{IsSet};
ghost use Rattle.dyl_slots.specs.dyl_search.Gathers.{member_of};
ghost use Rattle.dyl_slots.specs.dyl_scope.Scopes.{AreOf, told_of};

use dyl_slots::dyl_scope::{Maker, Symbols};
use dyl_slots::dyl_search::Member;
use std::alloc::Global;
use wasm_form::Memory;

// All that is told of members.
fn told_of(alloc: Global, members: &[Member]) -> Result<Maker, Memory>
    requires { length members.now ≤ 256 }
    ensures { IfOk result (λ maker. maker ≡ map (λ m. told_of (member_of m)) members.now) }
{
    let mut maker = Maker::new(alloc);
    for member in members {
        maker.add(alloc, &member.checked, member.needed.items())?;
    }
    Ok(maker)
}

// The names that the members of a set define, and the orders in which they are gone through.
pub(crate) fn symbols_of(alloc: Global, members: &[Member]) -> Result<Symbols, Memory>
    requires { length members.now ≤ 256 }
    ensures count { IfOk result (λ symbols. length symbols.names ≡ length members.now) }
    ensures exact { IfOk result (λ symbols. (S : ClosedSet) → IsSet S → S.members ≡ map member_of members.now → AreOf S symbols) }
{
    let maker = told_of(alloc, members)?;
    maker.finish(alloc)
}
