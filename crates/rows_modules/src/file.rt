// The files of generated sets.
use crate::code::hex;
use dyl_gen::{GenFault, make};
use dyl_outside::{Files, MemFiles};
use rows_texts::Refused;
use std::alloc::{AllocError, Global};

// The bytes of the file at a path, if there is one.
fn of_path(alloc: Global, files: &mut MemFiles, path: &str) -> Result<String, AllocError> {
    match files.fetch(alloc, path, 8192) {
        Ok(bytes) => hex(alloc, &bytes),
        Err(_) => String::from_str(alloc, "absent"),
    }
}

/// What the set of so many members has at a path: the number is told, and the path behind it, where `""` is the empty one.
pub fn answer(alloc: Global, part: &str) -> Result<String, Refused> {
    let (members, path) = part.split_once(' ').unwrap_or((part, ""));
    let told = match make(alloc, members.parse::<u32>()?) {
        Ok(files) => {
            let mut files = files;
            let told = of_path(alloc, &mut files, path.trim_matches('"'));
            drop(files);
            told?
        }
        Err(GenFault::Range) => String::from_str(alloc, "out of range")?,
        Err(GenFault::Memory) => String::from_str(alloc, "out of memory")?,
    };
    Ok(told)
}
