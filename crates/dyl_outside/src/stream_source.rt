// A source over any reader.
ghost use Rattle.std.specs.Prelude.{◌≡◌, ◌<◌, ◌≤◌, false, length, IfOk};
ghost use Rattle.std.specs.Option.{ForSome};
ghost use Rattle.dyl_outside.specs.Faults.{FaultCount};
ghost use Rattle.dyl_outside.specs.Source.{IsTaken};

use crate::fault::system_fault;
use crate::room::room;
use crate::{IoFault, Source};
use std::alloc::Global;
use std::io::{ErrorKind, Read};

/// How many bytes one read asks for at the most.
const PIECE: usize = 65536;

/// A source over a reader. It tells no content.
#[derive(Drop)]
pub struct StreamSource<R> {
    reader: R,
    faults: u64,
}

impl<R: Read> StreamSource<R> {
    /// The source over this reader.
    pub fn new(reader: R) -> StreamSource<R>
        ensures reader { result.reader ≡ reader }
        ensures faults { result.faults ≡ 0 }
    {
        StreamSource { reader, faults: 0 }
    }
}

impl<R: Read> Source for StreamSource<R> {
    ghost use Rattle.std.specs.Prelude.{None, false};

    ghost seen = { λ s. record { left = None; full = false; faults = s.faults } };

    fn take(&mut self, alloc: Global, most: usize) -> Result<Vec<u8>, IoFault>
        requires { 0 < most }
        ensures size { IfOk result (λ bytes. length bytes.items ≤ most) }
        ensures count { FaultCount result self.old.faults self.new.faults }

        // From a reader that tells what is left, the answer is what a take should give.
        ensures reader { ForSome (R.remaining self.old.reader) (λ before. IsTaken before false most result (R.remaining self.new.reader)) }
    {
        let answer = read_some(&mut self.reader, alloc, most);
        if let Err(IoFault::Failed) = &answer {
            self.faults = self.faults.saturating_add(1);
        }
        answer
    }
}

/// What the next read that isn't interrupted gives. The room for it is had before. Memory comes where that
/// can't be had, or the read says that memory is short.
fn read_some<R: Read>(reader: &mut R, alloc: Global, most: usize) -> Result<Vec<u8>, IoFault>
    requires { 0 < most }
    ensures answer { ForSome (R.remaining reader.old) (λ before. IsTaken before false most result (R.remaining reader.new)) }
    ensures size { IfOk result (λ bytes. length bytes.items ≤ most) }
{
    let Ok(mut bytes) = room(alloc, most.min(PIECE)) else {
        return Err(IoFault::Memory);
    };
    for _ in 0..u64::MAX {
        match reader.read(&mut bytes) {
            Ok(count) => {
                bytes.truncate(count);
                return Ok(bytes);
            }
            Err(error) => {
                if error.kind() != ErrorKind::Interrupted {
                    return Err(system_fault(&error));
                }
            }
        }
    }
    Err(IoFault::Failed)
}
