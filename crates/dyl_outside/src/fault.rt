// Why a call on the outside was not served.
ghost use Rattle.std.specs.Prelude.{◌≡◌, ◌≢◌, ◌↔◌};
ghost use Rattle.std.specs.IoError.{error_kind};

use std::io::{self, ErrorKind};

/// Why a read, a write, a time or a random word was not had.
#[derive(Clone, Copy, Debug, PartialEq, Eq)]
pub enum IoFault {
    /// The object failed, and its count of faults rose.
    Failed,
    /// No memory could be had.
    Memory,
}

/// Why a file was not fetched.
#[derive(Clone, Copy, Debug, PartialEq, Eq)]
pub enum FileFault {
    /// There is no file at that path, and the count of Absent answers rose by one.
    Absent,
    /// The files failed, and their count of read faults rose.
    Failed,
    /// The file has more bytes than were asked for.
    TooLong,
    /// No memory could be had.
    Memory,
}

/// Why the system didn't serve a call: Memory where it says that memory is short.
pub(crate) fn system_fault(error: &io::Error) -> IoFault
    ensures memory { (result ≡ IoFault.Memory) ↔ (error_kind error.now ≡ ErrorKind.OutOfMemory) }
    ensures else_failed { result ≢ IoFault.Memory → result ≡ IoFault.Failed }
{
    if error.kind() == ErrorKind::OutOfMemory {
        return IoFault::Memory;
    }
    IoFault::Failed
}
