// The files of a runtime.
ghost use Rattle.std.specs.Prelude.{◌≡◌, ◌≢◌, ◌≤◌, ◌↔◌, length, IfOk};
ghost use Rattle.std.specs.IoError.{error_kind};
ghost use Rattle.std.specs.Option.{ForSome};
ghost use Rattle.dyl_outside.specs.Adapters.{IsWhole, read_fault};

use crate::fault::system_fault;
use crate::room::room;
use crate::stream_sink::write_whole;
use crate::{FileFault, Files, IoFault};
use std::alloc::Global;
use std::fs;
use std::io::{self, ErrorKind, Read};
use std::rt::Files as FileSystem;

/// How many bytes one read asks for.
const PIECE: usize = 65536;

/// The files of a runtime, by the system's paths. It tells no content.
#[derive(Drop)]
pub struct DiskFiles<'a, R> {
    rt: &'a R,
    read_faults: u64,
    write_faults: u64,
    absents: u64,
}

impl<'a, R: FileSystem> DiskFiles<'a, R> {
    /// The files of this runtime.
    pub fn new(rt: &'a R) -> DiskFiles<'a, R>
        ensures read_faults { result.read_faults ≡ 0 }
        ensures write_faults { result.write_faults ≡ 0 }
        ensures absents { result.absents ≡ 0 }
    {
        DiskFiles {
            rt,
            read_faults: 0,
            write_faults: 0,
            absents: 0,
        }
    }
}

impl<R: FileSystem> Files for DiskFiles<'_, R> {
    ghost use Rattle.std.specs.Prelude.{None};

    ghost seen = { λ s. record {
      told = None;
      read_faults = s.read_faults;
      write_faults = s.write_faults;
      absents = s.absents;
    } };

    /// Absent comes exactly where opening says that nothing is found, and Memory where opening or reading
    /// says that memory is short, or none could be had here. A folder at that path, a path
    /// through a plain file and a file that may not be read are Failed.
    fn fetch(&mut self, alloc: Global, path: &str, most: usize) -> Result<Vec<u8>, FileFault> {
        let answer = match fs::open(self.rt, path) {
            Ok(mut file) => read_whole(&mut file, alloc, most),
            Err(error) => Err(open_fault(&error)),
        };
        match &answer {
            Err(FileFault::Absent) => self.absents = self.absents.saturating_add(1),
            Err(FileFault::Failed) => self.read_faults = self.read_faults.saturating_add(1),
            Ok(_) | Err(FileFault::TooLong) | Err(FileFault::Memory) => {}
        }
        answer
    }

    /// A path that can't be made or written, as in a folder that is missing, is Failed; once the file is
    /// made, want of memory is too.
    fn store(&mut self, _alloc: Global, path: &str, bytes: &[u8]) -> Result<(), IoFault> {
        let fault = match fs::create(self.rt, path) {
            Ok(mut file) => match write_whole(&mut file, bytes) {
                Ok(()) => return Ok(()),
                Err(_) => IoFault::Failed,
            },
            Err(error) => system_fault(&error),
        };
        if fault == IoFault::Failed {
            self.write_faults = self.write_faults.saturating_add(1);
        }
        Err(fault)
    }
}

/// What it means for a fetch that opening the file failed so.
fn open_fault(error: &io::Error) -> FileFault
    ensures absent { (result ≡ FileFault.Absent) ↔ (error_kind error.now ≡ ErrorKind.NotFound) }
    ensures memory { (result ≡ FileFault.Memory) ↔ (error_kind error.now ≡ ErrorKind.OutOfMemory) }
    ensures else_failed { result ≢ FileFault.TooLong }
{
    match error.kind() {
        ErrorKind::NotFound => FileFault::Absent,
        ErrorKind::OutOfMemory => FileFault::Memory,
        _ => FileFault::Failed,
    }
}

/// What it means for a fetch that reading the file failed so.
fn read_fault(fault: IoFault) -> FileFault
    ensures { result ≡ read_fault fault }
{
    match fault {
        IoFault::Failed => FileFault::Failed,
        IoFault::Memory => FileFault::Memory,
    }
}

/// The bytes up to the end of a file, of which there are at most this many.
fn read_whole<R: Read>(file: &mut R, alloc: Global, most: usize) -> Result<Vec<u8>, FileFault>
    ensures size { IfOk result (λ bytes. length bytes.items ≤ most) }
    ensures answer { ForSome (R.remaining file.old) (λ whole. IsWhole whole most result) }
{
    let mut bytes = Vec::new(alloc);
    let Ok(mut piece) = room(alloc, PIECE) else {
        return Err(FileFault::Memory);
    };
    for _ in 0..u64::MAX {
        match file.read(&mut piece) {
            Ok(0) => return Ok(bytes),
            Ok(count) => {
                if count > most - bytes.len() {
                    return Err(FileFault::TooLong);
                }
                if bytes.extend_from_slice(&piece[..count]).is_err() {
                    return Err(FileFault::Memory);
                }
            }
            Err(error) => {
                if error.kind() != ErrorKind::Interrupted {
                    return Err(read_fault(system_fault(&error)));
                }
            }
        }
    }
    Err(FileFault::Failed)
}
