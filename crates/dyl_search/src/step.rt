// One member more.
ghost use Rattle.std.specs.Prelude.{◌≡◌, ◌≤◌, ◌<◌, ◌+◌, ◌^◌, ◌∷◌, ◌++◌, [], ℕ, List, map, length, IfOk, IfErr, OnOk, Ok, Err};
ghost use Rattle.std.specs.Option.{ForSome};
ghost use Rattle.std.specs.FinMap.{get};
ghost use Rattle.dyl_outside.specs.Faults.{Rises};
ghost use Rattle.spec_linking.specs.Wanted.{with_names, with_later, number_of};
ghost use Rattle.dyl_search.specs.Found.{Leaves};
ghost use Rattle.dyl_search.specs.Absents.{CountsFor};
ghost use Rattle.dyl_search.specs.Gathers.{options_of, Stands, Counted, Stops, IsWhole};
ghost use Rattle.dyl_search.specs.Steps.{AreNamed, IsMade};
ghost use Rattle.spec_linking.specs.declared.fault.SetFault.TheVariants as faults;

use crate::find::Found;
use crate::load::{Loaded, load};
use crate::names::Names;
use crate::next::find_next;
use crate::progress::Progress;
use crate::set::{Member, SetOptions};
use dyl_outside::Files;
use dyl_section::Dylink;
use spec_linking::SetFault;
use std::alloc::Global;
use wasm_form::{List as Listing, Memory, Text, owned};

// The numbers of the names that a member needs, of which those without a number get the next ones.
fn number_names(
    alloc: Global,
    names: &mut Names,
    needed_by: u32,
    needed: &[Text],
) -> Result<Vec<u32>, Memory>
    requires { length names.old + length needed.now < 2 ^ 32 }
    ensures known { OnOk result (names.new ≡ with_names needed_by names.old needed.now) }
    ensures numbers { IfOk result (λ v. v.items ≡ map (number_of names.new) needed.now) }
{
    let mut numbers = Vec::new(alloc);
    for name in needed {
        let number = names.number(alloc, name.as_str(), needed_by)?;
        numbers.push(number)?;
    }
    Ok(numbers)
}

// The name of the next member, and the numbers of the names that it needs, of which those without a number get the next ones.
fn next_names(
    alloc: Global,
    names: &mut Names,
    number: u32,
    dylink: &Dylink,
) -> Result<(Text, Listing<u32>), Memory>
    requires more { number < length names.old }
    requires few { length names.old + length dylink.now.needed < 2 ^ 32 }
    ensures named { IfOk result (λ p. AreNamed names.old number dylink.now.needed p.0 p.1) }
    ensures known { OnOk result (names.new ≡ with_names number names.old dylink.now.needed) }
{
    let Some((name, _)) = names.get(number as usize) else {
        unreachable!()
    };
    let name = owned(alloc, name)?;
    let needed = number_names(alloc, names, number, dylink.needed.items())?;
    Ok((Text::of(name), Listing::of(needed)))
}

// The member whose file is found next. The names that it needs get numbers.
fn next_member(
    alloc: Global,
    names: &mut Names,
    number: u32,
    found: Found,
    loaded: Loaded,
) -> Result<Member, Memory>
    requires more { number < length names.old }
    requires few { length names.old + length loaded.dylink.needed < 2 ^ 32 }
    requires few_bytes { length found.bytes.items ≤ 16777216 }
    ensures made { IfOk result (IsMade names.old number found loaded) }
    ensures known { OnOk result (names.new ≡ with_names number names.old loaded.dylink.needed) }
{
    match next_names(alloc, names, number, &loaded.dylink) {
        Ok((name, needed)) => Ok(Member {
            name,
            size: found.bytes.as_slice().len() as u32,
            path: found.path,
            dylink: loaded.dylink,
            checked: loaded.checked,
            needed,
        }),
        Err(memory) => {
            drop(found);
            drop(loaded);
            Err(memory)
        }
    }
}

// A member is added. Where no name is left to be found, one of those to be opened later gets the next number.
fn add_member(alloc: Global, o: &SetOptions, g: &mut Progress, member: Member) -> Result<(), Memory>
    requires few { length g.old.members.items < 256 }
    requires few_names { length g.old.names < 2 ^ 32 }
    requires few_bytes { g.old.total + member.size ≤ 16777216 }
    ensures members { OnOk result (g.new.members.items ≡ g.old.members.items ++ member ∷ []) }
    ensures names { OnOk result (g.new.names ≡ with_later (options_of o.now) (length g.old.members.items + 1) g.old.names) }
    ensures total { OnOk result (g.new.total ≡ g.old.total + member.size) }
{
    g.total += member.size as usize;
    g.members.push(member)?;
    if g.names.len() == g.members.as_slice().len() {
        g.names.add_one_of(alloc, o.dl.items())?;
    }
    Ok(())
}

// The member that is found next.
pub fn step<F: Files>(
    alloc: Global,
    files: &mut F,
    o: &SetOptions,
    g: &mut Progress,
) -> Result<(), SetFault>
    requires stands { Stands (F.seen files.old).told o.now g.old }
    requires more { length g.old.members.items < length g.old.names }
    ensures stands { OnOk result (Stands (F.seen files.old).told o.now g.new) }
    ensures one_more { OnOk result (length g.new.members.items ≡ length g.old.members.items + 1) }
    ensures tried { (start : ℕ) → Counted (F.seen files.old).told o.now g.old start (F.seen files.old).absents → OnOk result (Counted (F.seen files.old).told o.now g.new start (F.seen files.new).absents) }
    ensures broken { (start : ℕ) → Counted (F.seen files.old).told o.now g.old start (F.seen files.old).absents → IfErr result (λ e. CountsFor (F.seen files.old).told (options_of o.now) (Err e) start (F.seen files.new).absents) }
    ensures stops { IfErr result (λ e. ForSome (F.seen files.old).told (λ m. Stops (get m) (options_of o.now) e)) }
    ensures whole { IfErr result IsWhole }
    ensures outside { Leaves result (F.seen files.old) (F.seen files.new) }
    ensures absent { (name : List ℕ) → result ≡ Err (faults.Missing name) → Rises (F.seen files.old).absents (F.seen files.new).absents }
{
    let found = find_next(alloc, files, o, g)?;
    let number = g.members.as_slice().len() as u32;
    let loaded = load(alloc, number, found.bytes.as_slice())?;
    let member = next_member(alloc, &mut g.names, number, found, loaded)?;
    add_member(alloc, o, g, member)?;
    Ok(())
}
