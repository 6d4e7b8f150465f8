// The file at the first of some paths.
ghost use Rattle.std.specs.Prelude.{◌≡◌, ◌∷◌, [], map, Some, None, Ok, string_bytes};
ghost use Rattle.dyl_outside.specs.Faults.{Rises, RisesByOne};
ghost use Rattle.std.specs.Prelude.{◌++◌};
ghost use Rattle.spec_linking.specs.Paths.{in_directory, folder, search_paths};
ghost use Rattle.dyl_search.specs.Gathers.{options_of};
ghost use Rattle.std.specs.Option.{option_copied};
ghost use Rattle.dyl_search.specs.Expanded.{expanded_from};
ghost use Rattle.dyl_search.specs.Found.{Finds, Leaves};

use crate::paths::{beside, file_in, has_slash_in};
use crate::set::{Member, SetOptions};
use dyl_outside::{FileFault, Files};
use spec_linking::SetFault;
use std::alloc::Global;
use wasm_form::{Text, owned};

// A file: its path and its bytes.
#[derive(Drop)]
pub struct Found {
    pub path: Text,
    pub bytes: Vec<u8>,
}

// The file at a path, if there is one.
pub fn find_at<F: Files>(
    alloc: Global,
    files: &mut F,
    path: String,
    most: usize,
) -> Result<Option<Found>, SetFault>
    ensures answer { Finds (F.seen files.old).told (string_bytes path ∷ []) most result (F.seen files.old).absents (F.seen files.new).absents }
    ensures outside { Leaves result (F.seen files.old) (F.seen files.new) }
    ensures absent { result ≡ Ok None → RisesByOne (F.seen files.old).absents (F.seen files.new).absents }
{
    match files.fetch(alloc, path.as_str(), most) {
        Ok(bytes) => Ok(Some(Found {
            path: Text::of(path),
            bytes,
        })),
        Err(FileFault::Absent) => Ok(None),
        Err(FileFault::Failed) => Err(SetFault::ReadFault {
            path: Text::of(path),
        }),
        Err(FileFault::TooLong) => Err(SetFault::SetSize),
        Err(FileFault::Memory) => Err(SetFault::Memory),
    }
}

// The file with a name in a directory, in which a leading `$ORIGIN` stands for the origin of a path, if one is given.
fn find_inside<F: Files>(
    alloc: Global,
    files: &mut F,
    from: Option<&str>,
    directory: &str,
    name: &str,
    most: usize,
) -> Result<Option<Found>, SetFault>
    ensures answer { Finds (F.seen files.old).told (in_directory (expanded_from (option_copied from.entry) directory.now) name.now ∷ []) most result (F.seen files.old).absents (F.seen files.new).absents }
    ensures outside { Leaves result (F.seen files.old) (F.seen files.new) }
{
    let path = file_in(alloc, from, directory, name)?;
    find_at(alloc, files, path, most)
}

// The file with a name in the first of some directories that has one. A leading `$ORIGIN` stands for the origin of a
// path, if one is given.
pub fn find_in<F: Files>(
    alloc: Global,
    files: &mut F,
    from: Option<&str>,
    directories: &[Text],
    name: &str,
    most: usize,
) -> Result<Option<Found>, SetFault>
    ensures answer { Finds (F.seen files.old).told (map (λ d. in_directory (expanded_from (option_copied from.entry) d) name.now) directories.now) most result (F.seen files.old).absents (F.seen files.new).absents }
    ensures outside { Leaves result (F.seen files.old) (F.seen files.new) }
{
    for directory in directories {
        match find_inside(alloc, files, from, directory.as_str(), name, most) {
            Ok(None) => {}
            Ok(Some(found)) => return Ok(Some(found)),
            Err(fault) => return Err(fault),
        }
    }
    Ok(None)
}

// The file with a name in the first of the directories of the options that has one, or in the folder of the main module.
fn find_listed<F: Files>(
    alloc: Global,
    files: &mut F,
    o: &SetOptions,
    name: &str,
    most: usize,
) -> Result<Option<Found>, SetFault>
    ensures answer { Finds (F.seen files.old).told (map (λ d. in_directory d name.now) o.now.paths ++ (folder o.now.main ++ name.now) ∷ []) most result (F.seen files.old).absents (F.seen files.new).absents }
    ensures outside { Leaves result (F.seen files.old) (F.seen files.new) }
    ensures absent { result ≡ Ok None → Rises (F.seen files.old).absents (F.seen files.new).absents }
{
    match find_in(alloc, files, None, o.paths.items(), name, most) {
        Ok(Some(found)) => Ok(Some(found)),
        Ok(None) => find_at(alloc, files, beside(alloc, o.main.as_str(), name)?, most),
        Err(fault) => Err(fault),
    }
}

// The file at the first of the paths at which a name is searched that a member needs.
pub fn find_needed<F: Files>(
    alloc: Global,
    files: &mut F,
    o: &SetOptions,
    member: &Member,
    name: &str,
    most: usize,
) -> Result<Option<Found>, SetFault>
    ensures answer { Finds (F.seen files.old).told (search_paths (options_of o.now) member.now.path member.now.dylink.paths name.now) most result (F.seen files.old).absents (F.seen files.new).absents }
    ensures outside { Leaves result (F.seen files.old) (F.seen files.new) }
    ensures absent { result ≡ Ok None → Rises (F.seen files.old).absents (F.seen files.new).absents }
{
    if has_slash_in(name) {
        let path = owned(alloc, name)?;
        return find_at(alloc, files, path, most);
    }
    let from = Some(member.path.as_str());
    match find_in(alloc, files, from, member.dylink.paths.items(), name, most) {
        Ok(Some(file)) => Ok(Some(file)),
        Ok(None) => find_listed(alloc, files, o, name, most),
        Err(fault) => Err(fault),
    }
}
