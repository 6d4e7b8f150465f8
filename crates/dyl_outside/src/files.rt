// Files by path, as a caller sees them.
ghost use Rattle.dyl_outside.specs.Files.{FilesState, Fetches, Stores};

use crate::{FileFault, IoFault};
use std::alloc::Global;

/// Files, each at a path. No count of it ever falls.
pub trait Files {
    /// What is seen of them.
    ghost seen: { Self → FilesState };

    /// The bytes of the file at a path. It changes no file.
    ///
    /// Absent comes exactly where no file is at that path, and TooLong exactly where the file has more
    /// than `most` bytes, unless the answer is Failed or Memory. Failed comes only where the count of
    /// read faults rose in this call. The count of Absent answers rises by one at Absent, up to its last
    /// value, 2^64 - 1, and stays as it is at every other answer.
    fn fetch(&mut self, alloc: Global, path: &str, most: usize) -> Result<Vec<u8>, FileFault>
        ensures { Fetches path.now most result (seen self.old) (seen self.new) };

    /// Makes a path hold these bytes, and leaves the other paths as they are.
    ///
    /// After Failed that path may hold any bytes or none, and the count of write faults rose in this
    /// call. After Memory all files are as before.
    fn store(&mut self, alloc: Global, path: &str, bytes: &[u8]) -> Result<(), IoFault>
        ensures { Stores path.now bytes.now result (seen self.old) (seen self.new) };
}
