// The parts of paths.
ghost use Rattle.std.specs.Prelude.{◌≡◌, ◌++◌, ◌+◌, ◌-◌, ◌<◌, IfOk, OnOk, string_bytes};
ghost use Rattle.std.specs.Option.{option_copied};
ghost use Rattle.spec_linking.specs.Sets.{main_name};
ghost use Rattle.spec_linking.specs.Paths.{has_slash, folder, origin, in_directory};
ghost use Rattle.dyl_search.specs.Expanded.{expanded_from};

use std::alloc::Global;
use wasm_form::Memory;

// Whether a name has a slash.
pub fn has_slash_in(name: &str) -> bool
    ensures { result ≡ has_slash name.now }
{
    name.as_bytes().contains(&b'/')
}

/// The name that a path gives a main module: what stands after its last slash.
pub fn name_of(path: &str) -> &str
    ensures { result.now ≡ main_name path.now }
{
    let mut start = 0;
    for (i, b) in path.as_bytes().iter().enumerate() {
        if *b == b'/' {
            start = i + 1;
        }
    }
    &path[start..]
}

// The part of a path up to and with its last slash.
pub fn folder_of(path: &str) -> &str
    ensures { result.now ≡ folder path.now }
{
    let mut end = 0;
    for (i, b) in path.as_bytes().iter().enumerate() {
        if *b == b'/' {
            end = i + 1;
        }
    }
    &path[..end]
}

// What stands before the last slash of a path, or a dot where there is none.
fn origin_of(path: &str) -> &str
    ensures { result.now ≡ origin path.now }
{
    match folder_of(path).strip_suffix("/") {
        Some(origin) => origin,
        None => ".",
    }
}

// A directory, in which a leading `$ORIGIN` stands for the origin of a path, if one is given.
fn put_directory(to: &mut String, from: Option<&str>, directory: &str) -> Result<(), Memory>
    ensures { OnOk result (string_bytes to.new ≡ string_bytes to.old ++ expanded_from (option_copied from.entry) directory.now) }
{
    let Some(from) = from else {
        to.push_str(directory)?;
        return Ok(());
    };
    match directory.strip_prefix("$ORIGIN") {
        Some(rest) => {
            to.push_str(origin_of(from))?;
            to.push_str(rest)?;
        }
        None => to.push_str(directory)?,
    }
    Ok(())
}

// A name in a directory.
pub fn file_in(
    alloc: Global,
    from: Option<&str>,
    directory: &str,
    name: &str,
) -> Result<String, Memory>
    ensures { IfOk result (λ p. string_bytes p ≡ in_directory (expanded_from (option_copied from.entry) directory.now) name.now) }
{
    let mut path = String::new(alloc);
    put_directory(&mut path, from, directory)?;
    path.push_str("/")?;
    path.push_str(name)?;
    Ok(path)
}

// A name in the folder of a path.
pub fn beside(alloc: Global, path: &str, name: &str) -> Result<String, Memory>
    ensures { IfOk result (λ p. string_bytes p ≡ folder path.now ++ name.now) }
{
    let mut beside = String::new(alloc);
    beside.push_str(folder_of(path))?;
    beside.push_str(name)?;
    Ok(beside)
}
