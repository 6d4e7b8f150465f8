// Files in memory.
ghost use Rattle.std.specs.Prelude.{◌≡◌, ◌≤◌, ◌↔◌, ◌∷◌, [], ◌++◌, length, IfOk, OnOk, OnErr, Contains};
ghost use Rattle.std.specs.FinMap.{empty, get, insert};
ghost use Rattle.std.specs.Option.{option_copied};
ghost use Rattle.dyl_outside.specs.MemFiles.{files_of};
ghost use Rattle.dyl_outside.specs.Files.{IsFetched, IsStored, ReadCount, AbsentCount};
ghost use Rattle.dyl_outside.specs.Faults.{FaultCount, risen};

use crate::calls::Calls;
use crate::{FileFault, Files, IoFault};
use std::alloc::Global;
use std::collections::VecDeque;
use std::marker::Model;
use wasm_form::Memory;

/// Files in memory. It tells them, and fails exactly at the calls that `fail_at` was given.
#[derive(Drop)]
pub struct MemFiles {
    // The first entry of a path counts.
    entries: VecDeque<(Vec<u8>, Vec<u8>)>,
    calls: Calls,
    read_faults: u64,
    write_faults: u64,
    absents: u64,
}

impl Model for MemFiles {
    ghost use Rattle.dyl_outside.specs.MemFiles.{MemFilesState, mem_files_code, files_of};

    ghost Value = { MemFilesState };

    ghost coded = { mem_files_code };

    ghost view = { λ s. record {
      files = files_of s.entries.items;
      failing = s.calls.failing.items;
      next_call = s.calls.next;
      read_faults = s.read_faults;
      write_faults = s.write_faults;
      absents = s.absents;
    } };
}

impl MemFiles {
    /// No files. No call is to fail.
    pub fn new(alloc: Global) -> MemFiles
        ensures { result ≡ record { files = empty; failing = []; next_call = 0; read_faults = 0; write_faults = 0; absents = 0 } }
    {
        MemFiles {
            entries: VecDeque::new(alloc),
            calls: Calls::new(alloc),
            read_faults: 0,
            write_faults: 0,
            absents: 0,
        }
    }

    /// Makes a path hold these bytes. This is no call of the trait, so it has no number.
    pub fn add(&mut self, alloc: Global, path: &str, bytes: &[u8]) -> Result<(), Memory>
        ensures ok { OnOk result (self.new ≡ record self.old { files = insert self.old.files path.now bytes.now }) }
        ensures err { OnErr result (self.new ≡ self.old) }
    {
        let name = path.as_bytes().to_vec(alloc)?;
        let copy = bytes.to_vec(alloc)?;
        self.entries.push_front((name, copy))?;
        Ok(())
    }

    /// Lets the call with this number fail, counted from 0 over fetches and stores and up to 2^64 - 1,
    /// where the number stays. It then changes no file.
    pub fn fail_at(&mut self, _alloc: Global, call: u64) -> Result<(), Memory>
        ensures ok { OnOk result (self.new ≡ record self.old { failing = self.old.failing ++ call ∷ [] }) }
        ensures err { OnErr result (self.new ≡ self.old) }
    {
        self.calls.fail_at(call)
    }
}

impl Files for MemFiles {
    ghost use Rattle.std.specs.Prelude.{Some};

    ghost seen = { λ s. record {
      told = Some s.files;
      read_faults = s.read_faults;
      write_faults = s.write_faults;
      absents = s.absents;
    } };

    fn fetch(&mut self, alloc: Global, path: &str, most: usize) -> Result<Vec<u8>, FileFault>
        ensures answer { IsFetched self.old.files path.now most result }
        ensures size { IfOk result (λ bytes. length bytes.items ≤ most) }
        ensures files { self.new.files ≡ self.old.files }
        ensures reads { ReadCount result self.old.read_faults self.new.read_faults }
        ensures writes { self.new.write_faults ≡ self.old.write_faults }
        ensures absents { AbsentCount result self.old.absents self.new.absents }

        // It fails exactly at the numbers that were given.
        ensures failed { (result ≡ Err FileFault.Failed) ↔ Contains self.old.failing self.old.next_call }
        ensures failing { self.new.failing ≡ self.old.failing }
        ensures next_call { self.new.next_call ≡ risen self.old.next_call }
    {
        if self.calls.fails() {
            self.read_faults = self.read_faults.saturating_add(1);
            return Err(FileFault::Failed);
        }
        let Some(bytes) = find(&self.entries, path) else {
            self.absents = self.absents.saturating_add(1);
            return Err(FileFault::Absent);
        };
        if bytes.len() > most {
            return Err(FileFault::TooLong);
        }
        bytes.to_vec(alloc).map_err(|_| FileFault::Memory)
    }

    fn store(&mut self, alloc: Global, path: &str, bytes: &[u8]) -> Result<(), IoFault>
        ensures files { IsStored self.old.files path.now bytes.now result (Some self.new.files) }
        ensures reads { self.new.read_faults ≡ self.old.read_faults }
        ensures writes { FaultCount result self.old.write_faults self.new.write_faults }
        ensures absents { self.new.absents ≡ self.old.absents }

        // It fails exactly at the numbers that were given, and then changes no file.
        ensures failed { (result ≡ Err IoFault.Failed) ↔ Contains self.old.failing self.old.next_call }
        ensures kept { OnErr result (self.new.files ≡ self.old.files) }
        ensures failing { self.new.failing ≡ self.old.failing }
        ensures next_call { self.new.next_call ≡ risen self.old.next_call }
    {
        if self.calls.fails() {
            self.write_faults = self.write_faults.saturating_add(1);
            return Err(IoFault::Failed);
        }
        self.add(alloc, path, bytes).map_err(|_| IoFault::Memory)
    }
}

/// The bytes of the first entry of a path.
fn find<'a>(entries: &'a VecDeque<(Vec<u8>, Vec<u8>)>, path: &str) -> Option<&'a [u8]>
    ensures { option_copied result ≡ get (files_of entries.now.items) path.now }
{
    for (name, bytes) in entries {
        if path.as_bytes() == name.as_slice() {
            return Some(bytes.as_slice());
        }
    }
    None
}
