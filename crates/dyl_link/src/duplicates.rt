// Names that are defined twice.
ghost use Rattle.std.specs.Prelude.{◌≡◌, ◌≤◌, ◌++◌, ◌∷◌, [], length, map, OnOk};
ghost use Rattle.spec_loading.specs.spec_linking.Sets.{ClosedSet};
ghost use Rattle.spec_loading.specs.spec_linking.Gathering.{IsSet};
ghost use Rattle.spec_loading.specs.spec_linking.Definitions.{searched};
ghost use Rattle.spec_loading.specs.spec_linking.Links as links;
ghost use Rattle.spec_loading.specs.spec_linking.Links.{first_fault};
ghost use Rattle.dyl_slots.specs.dyl_search.Gathers.{member_of};
ghost use Rattle.dyl_slots.specs.dyl_scope.Scopes.{AreOf, meaning_of};
ghost use Rattle.dyl_link.specs.Answers.{Tells};
ghost use Rattle.dyl_link.specs.Duplicates.{member_in, duplicate_by};

use dyl_slots::dyl_scope::{Def, Symbols};
use dyl_slots::dyl_search::Member;
use spec_loading::spec_linking::LinkFault;
use std::alloc::Global;
use wasm_form::{Export, Memory, Text};

// The member that a definition is of.
fn member_in(found: Def) -> Option<u32>
    ensures { result ≡ member_in (meaning_of found) }
{
    match found {
        Def::Function { module, .. } | Def::Datum { module, .. } => Some(module),
        Def::Loader(_) | Def::HeapBase | Def::HeapEnd | Def::Host(_) | Def::Weak | Def::Nothing =>
            None,
    }
}

// The first of some members that defines a name.
fn definer(symbols: &Symbols, members: &[u32], name: &str) -> Option<u32>
    ensures { (S : ClosedSet) → AreOf S symbols.now → result ≡ member_in (searched S members.now name.now) }
{
    member_in(symbols.search(members, name))
}

fn duplicate(
    alloc: Global,
    symbols: &Symbols,
    earlier: &[u32],
    m: u32,
    e: &Export,
) -> Result<(), LinkFault>
    ensures { (S : ClosedSet) → AreOf S symbols.now → Tells result (duplicate_by S earlier.now m e.now) }
{
    let name = e.name.as_str();
    if definer(symbols, &[m], name).is_none() {
        return Ok(());
    }
    match definer(symbols, earlier, name) {
        Some(first) => {
            let name = Text::copied(alloc, name)?;
            Err(LinkFault::Duplicate {
                name,
                first,
                second: m,
            })
        }
        None => Ok(()),
    }
}

fn duplicates_of(
    alloc: Global,
    symbols: &Symbols,
    earlier: &[u32],
    m: u32,
    exports: &[Export],
) -> Result<(), LinkFault>
    ensures { (S : ClosedSet) → AreOf S symbols.now → Tells result (first_fault (duplicate_by S earlier.now m) exports.now) }
{
    for e in exports {
        duplicate(alloc, symbols, earlier, m, e)?;
    }
    Ok(())
}

fn add(members: &mut Vec<u32>, m: u32) -> Result<(), Memory>
    ensures { OnOk result (members.new.items ≡ members.old.items ++ m ∷ []) }
{
    members.push(m)?;
    Ok(())
}

// The first export that defines a name which an earlier member defines.
pub(crate) fn duplicates(
    alloc: Global,
    symbols: &Symbols,
    members: &[Member],
) -> Result<(), LinkFault>
    requires { length members.now ≤ 256 }
    ensures { (S : ClosedSet) → AreOf S symbols.now → IsSet S → S.members ≡ map member_of members.now → Tells result (links.duplicates_from S.members 0 S.members) }
{
    let mut earlier = Vec::new(alloc);
    for m in 0..members.len() {
        let exports = members[m].checked.module().exports.items();
        duplicates_of(alloc, symbols, &earlier, m as u32, exports)?;
        add(&mut earlier, m as u32)?;
    }
    Ok(())
}
