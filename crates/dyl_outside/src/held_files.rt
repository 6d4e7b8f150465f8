// Files in memory.
ghost use Rattle.std.specs.Prelude.{◌≡◌, []};

use crate::{FileFault, Files, IoFault, MemFiles};
use std::alloc::Global;
use std::marker::Model;

/// Files in memory. It tells them.
#[derive(Drop)]
pub struct HeldFiles {
    files: MemFiles,
}

impl Model for HeldFiles {
    ghost use Rattle.std.specs.Prelude.{◌≡◌, []};
    ghost use Rattle.dyl_outside.specs.MemFiles.{MemFilesState, mem_files_code};

    ghost Value = { MemFilesState };

    ghost coded = { mem_files_code };

    ghost view = { λ s. s.files };

    ghost invariant = { λ s. s.files.failing ≡ [] };
}

impl HeldFiles {
    /// These files, of which no call is to fail.
    pub fn of(files: MemFiles) -> HeldFiles
        requires { files.failing ≡ [] }
        ensures { result ≡ files }
    {
        HeldFiles { files }
    }
}

impl Files for HeldFiles {
    ghost use Rattle.std.specs.Prelude.{Some};

    ghost seen = { λ s. record { told = Some s.files; read_faults = 0; write_faults = 0; absents = s.absents } };

    fn fetch(&mut self, alloc: Global, path: &str, most: usize) -> Result<Vec<u8>, FileFault> {
        self.files.fetch(alloc, path, most)
    }

    fn store(&mut self, alloc: Global, path: &str, bytes: &[u8]) -> Result<(), IoFault> {
        self.files.store(alloc, path, bytes)
    }
}
