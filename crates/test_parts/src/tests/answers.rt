// Whether sources and files give what is wanted, bytes or a fault.
ghost use Rattle.std.specs.Prelude.{◌<◌};

use dyl_outside::{FileFault, Files, IoFault, Source};
use std::alloc::Global;

/// Whether a source gives these bytes, or this fault, when so many are taken.
pub(crate) fn takes<S: Source>(
    alloc: Global,
    source: &mut S,
    most: usize,
    want: Result<&[u8], IoFault>,
) -> bool
    requires { 0 < most }
{
    match source.take(alloc, most) {
        Ok(bytes) => want == Ok(bytes.as_slice()),
        Err(fault) => want == Err(fault),
    }
}

/// Whether files give these bytes, or this fault, when so many at most are fetched.
pub(crate) fn fetches<F: Files>(
    alloc: Global,
    files: &mut F,
    path: &str,
    most: usize,
    want: Result<&[u8], FileFault>,
) -> bool {
    match files.fetch(alloc, path, most) {
        Ok(bytes) => want == Ok(bytes.as_slice()),
        Err(fault) => want == Err(fault),
    }
}
