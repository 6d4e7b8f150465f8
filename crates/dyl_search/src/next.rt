// The file of the next name.
ghost use Rattle.std.specs.Prelude.{◌≡◌, ◌<◌, List, ℕ, map, length, slice_get, Some, None, Ok, Err, IfOk, IfErr, OnOk};
ghost use Rattle.std.specs.Option.{ForSome};
ghost use Rattle.std.specs.FinMap.{get};
ghost use Rattle.dyl_outside.specs.Faults.{Rises};
ghost use Rattle.spec_linking.specs.Gathering.{paths_from};
ghost use Rattle.dyl_search.specs.Found.{Finds, Leaves};
ghost use Rattle.dyl_search.specs.Absents.{CountsFor};
ghost use Rattle.dyl_search.specs.Gathers.{options_of, member_of, Stands, Counted, CountsNext, IsNextFile, Stops, OrMissing, IsSearchFault};
ghost use Rattle.spec_linking.specs.declared.fault.SetFault.TheVariants as faults;

use crate::find::{Found, find_at, find_needed};
use crate::progress::Progress;
use crate::set::{Member, SetOptions};
use dyl_outside::Files;
use spec_linking::SetFault;
use std::alloc::Global;
use wasm_form::{Text, owned};

/// The most bytes of the files of a set.
pub const MOST_BYTES: usize = 16_777_216;

/// The most members of a set.
pub const MOST_MEMBERS: usize = 256;

// The file of a name that the member with a number needs; the main module, which none needs, is at the given path.
fn find_wanted<F: Files>(
    alloc: Global,
    files: &mut F,
    o: &SetOptions,
    members: &[Member],
    name: &str,
    needed_by: u32,
    most: usize,
) -> Result<Option<Found>, SetFault>
    ensures answer { Finds (F.seen files.old).told (paths_from (options_of o.now) name.now (slice_get (map member_of members.now) needed_by)) most result (F.seen files.old).absents (F.seen files.new).absents }
    ensures outside { Leaves result (F.seen files.old) (F.seen files.new) }
    ensures absent { result ≡ Ok None → Rises (F.seen files.old).absents (F.seen files.new).absents }
{
    match members.get(needed_by as usize) {
        Some(member) => find_needed(alloc, files, o, member, name, most),
        None => {
            let path = owned(alloc, o.main.as_str())?;
            find_at(alloc, files, path, most)
        }
    }
}

// The file that was found, or that the name is missing.
fn or_missing(alloc: Global, name: &str, found: Option<Found>) -> Result<Found, SetFault>
    ensures { OrMissing name.now found result }
{
    match found {
        Some(found) => Ok(found),
        None => {
            let name = owned(alloc, name)?;
            Err(SetFault::Missing {
                name: Text::of(name),
            })
        }
    }
}

// The file of the next name.
pub fn find_next<F: Files>(
    alloc: Global,
    files: &mut F,
    o: &SetOptions,
    g: &Progress,
) -> Result<Found, SetFault>
    requires stands { Stands (F.seen files.old).told o.now g.now }
    requires more { length g.now.members.items < length g.now.names }
    ensures found { IfOk result (IsNextFile (F.seen files.old).told o.now g.now) }
    ensures stops { IfErr result (λ e. ForSome (F.seen files.old).told (λ m. Stops (get m) (options_of o.now) e)) }
    ensures fault { IfErr result IsSearchFault }
    ensures tried { OnOk result (CountsNext (F.seen files.old).told o.now g.now (F.seen files.old).absents (F.seen files.new).absents) }
    ensures broken { (start : ℕ) → Counted (F.seen files.old).told o.now g.now start (F.seen files.old).absents → IfErr result (λ e. CountsFor (F.seen files.old).told (options_of o.now) (Err e) start (F.seen files.new).absents) }
    ensures outside { Leaves result (F.seen files.old) (F.seen files.new) }
    ensures absent { (name : List ℕ) → result ≡ Err (faults.Missing name) → Rises (F.seen files.old).absents (F.seen files.new).absents }
{
    let members = g.members.as_slice();
    let number = members.len();
    if number == MOST_MEMBERS {
        return Err(SetFault::ModuleCount);
    }
    let Some((name, by)) = g.names.get(number) else {
        unreachable!()
    };
    let most = MOST_BYTES - g.total;
    let found = find_wanted(alloc, files, o, members, name, by, most)?;
    or_missing(alloc, name, found)
}
