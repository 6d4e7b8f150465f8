// The closed set of a main module.
ghost use Rattle.std.specs.Prelude.{◌≡◌, ◌≤◌, ◌<◌, ℕ, List, [], map, length, Option, IfOk, IfErr, OnOk, Ok, Err};
ghost use Rattle.std.specs.Option.{ForSome};
ghost use Rattle.std.specs.FinMap.{get};
ghost use Rattle.dyl_outside.specs.FileMap.{FileMap};
ghost use Rattle.dyl_outside.specs.Faults.{Rises};
ghost use Rattle.spec_linking.specs.Gathering as gathering;
ghost use Rattle.dyl_search.specs.Found.{Leaves};
ghost use Rattle.dyl_search.specs.Absents.{CountsFor};
ghost use Rattle.dyl_search.specs.Gathers.{options_of, set_of, member_of, Stands, Counted, Stops, GathersFrom, OnlyGathers, IsWhole};
ghost use Rattle.spec_linking.specs.declared.fault.SetFault.TheVariants as faults;

use crate::names::Names;
use crate::paths::name_of;
use crate::progress::Progress;
use crate::set::{ClosedSet, Member, SetOptions};
use crate::startup::closure_of;
use crate::step::step;
use dyl_outside::Files;
use spec_linking::SetFault;
use std::alloc::Global;
use wasm_form::{List as Listing, Memory};

// The name of the main module has a number, and no member is found.
fn begun(alloc: Global, o: &SetOptions) -> Result<Progress, Memory>
    ensures stands { IfOk result (λ g. (told : Option FileMap) → Stands told o.now g) }
    ensures none { IfOk result (λ g. g.members.items ≡ []) }
{
    let names = Names::of(alloc, name_of(o.main.as_str()))?;
    Ok(Progress {
        names,
        members: Vec::new(alloc),
        total: 0,
    })
}

// The set of these members.
fn closed(alloc: Global, members: Vec<Member>) -> Result<ClosedSet, Memory>
    ensures { IfOk result (λ S. set_of S ≡ gathering.set_of (map member_of members.items)) }
{
    match closure_of(alloc, members.as_slice(), 0) {
        Ok(startup) => Ok(ClosedSet {
            members: Listing::of(members),
            startup: Listing::of(startup),
        }),
        Err(memory) => {
            drop(members);
            Err(memory)
        }
    }
}

// Each name that has a number is found, and with it those that it needs.
fn gather_members<F: Files>(
    alloc: Global,
    files: &mut F,
    o: &SetOptions,
    g: &mut Progress,
) -> Result<(), SetFault>
    requires { Stands (F.seen files.old).told o.now g.old }
    ensures stands { OnOk result (Stands (F.seen files.old).told o.now g.new) }
    ensures all { OnOk result (length g.new.names ≤ length g.new.members.items) }
    ensures tried { (start : ℕ) → Counted (F.seen files.old).told o.now g.old start (F.seen files.old).absents → OnOk result (Counted (F.seen files.old).told o.now g.new start (F.seen files.new).absents) }
    ensures broken { (start : ℕ) → Counted (F.seen files.old).told o.now g.old start (F.seen files.old).absents → IfErr result (λ e. CountsFor (F.seen files.old).told (options_of o.now) (Err e) start (F.seen files.new).absents) }
    ensures stops { IfErr result (λ e. ForSome (F.seen files.old).told (λ m. Stops (get m) (options_of o.now) e)) }
    ensures whole { IfErr result IsWhole }
    ensures outside { Leaves result (F.seen files.old) (F.seen files.new) }
    ensures absent { (name : List ℕ) → result ≡ Err (faults.Missing name) → Rises (F.seen files.old).absents (F.seen files.new).absents }
{
    'members: while g.members.as_slice().len() < g.names.len() {
        step(alloc, files, o, g)?;
    }
    Ok(())
}

// The closed set of a main module, as one of the answers that there are.
fn gathered_set<F: Files>(
    alloc: Global,
    files: &mut F,
    o: &SetOptions,
) -> Result<ClosedSet, SetFault>
    ensures answer { ForSome (F.seen files.old).told (λ m. GathersFrom (get m) (options_of o.now) result) }
    ensures tried { IfOk result (λ S. CountsFor (F.seen files.old).told (options_of o.now) (Ok (set_of S)) (F.seen files.old).absents (F.seen files.new).absents) }
    ensures broken { IfErr result (λ e. CountsFor (F.seen files.old).told (options_of o.now) (Err e) (F.seen files.old).absents (F.seen files.new).absents) }
    ensures set { IfOk result (λ S. gathering.IsSet (set_of S)) }
    ensures whole { IfErr result IsWhole }
    ensures outside { Leaves result (F.seen files.old) (F.seen files.new) }
    ensures absent { (name : List ℕ) → result ≡ Err (faults.Missing name) → Rises (F.seen files.old).absents (F.seen files.new).absents }
{
    let mut g = begun(alloc, o)?;
    match gather_members(alloc, files, o, &mut g) {
        Ok(()) => {}
        Err(fault) => {
            drop(g);
            return Err(fault);
        }
    }
    drop(g.names);
    let set = closed(alloc, g.members)?;
    Ok(set)
}

/// The closed set of a main module: what it reaches through needed names, breadth first, and then what each name that may be opened later
/// reaches.
///
/// Where the files are told, each answer but ReadFault and Memory is the set, or the first fault, that they give, and there is no other;
/// ReadFault names a path that is tried; and the count of Absent answers rises by one for each path that is tried and has no file, and no
/// more. Whatever is told, a set has its shape, ReadFault comes only where the count of read faults rose in this call, Missing only where
/// that of Absent answers did, and no file changes.
pub fn gather<F: Files>(alloc: Global, files: &mut F, o: &SetOptions) -> Result<ClosedSet, SetFault>
    ensures answer { ForSome (F.seen files.old).told (λ m. GathersFrom (get m) (options_of o.now) result) }
    ensures only { ForSome (F.seen files.old).told (λ m. OnlyGathers (get m) (options_of o.now) result) }
    ensures tried { IfOk result (λ S. CountsFor (F.seen files.old).told (options_of o.now) (Ok (set_of S)) (F.seen files.old).absents (F.seen files.new).absents) }
    ensures broken { IfErr result (λ e. CountsFor (F.seen files.old).told (options_of o.now) (Err e) (F.seen files.old).absents (F.seen files.new).absents) }

    // Whatever is told.
    ensures set { IfOk result (λ S. gathering.IsSet (set_of S)) }
    ensures whole { IfErr result IsWhole }
    ensures outside { Leaves result (F.seen files.old) (F.seen files.new) }
    ensures absent { (name : List ℕ) → result ≡ Err (faults.Missing name) → Rises (F.seen files.old).absents (F.seen files.new).absents }
{
    spec_reading::reading_answers();
    dyl_section::one_record_answer();
    spec_linking::one_gathered();
    gathered_set(alloc, files, o)
}
