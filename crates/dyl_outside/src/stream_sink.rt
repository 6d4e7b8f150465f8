// A sink over any writer.
ghost use Rattle.std.specs.Prelude.{◌≡◌, IfErr};
ghost use Rattle.std.specs.Option.{ForSome};
ghost use Rattle.std.specs.Io.KnownBytes.{Keeps};
ghost use Rattle.dyl_outside.specs.Faults.{FaultCount};
ghost use Rattle.dyl_outside.specs.Sink.{IsPut};

use crate::fault::system_fault;
use crate::{IoFault, Sink};
use std::alloc::Global;
use std::io::{self, ErrorKind, Write};

/// A sink over a writer, flushed after each put. It tells no content.
#[derive(Drop)]
pub struct StreamSink<W> {
    writer: W,
    faults: u64,
}

impl<W: Write> StreamSink<W> {
    /// The sink over this writer.
    pub fn new(writer: W) -> StreamSink<W>
        ensures writer { result.writer ≡ writer }
        ensures faults { result.faults ≡ 0 }
    {
        StreamSink { writer, faults: 0 }
    }
}

impl<W: Write> Sink for StreamSink<W> {
    ghost use Rattle.std.specs.Prelude.{None};

    ghost seen = { λ s. record { held = None; faults = s.faults } };

    fn put(&mut self, _alloc: Global, bytes: &[u8]) -> Result<(), IoFault>
        ensures count { FaultCount result self.old.faults self.new.faults }

        // A writer that tells what it holds was given these bytes, or at Failed a prefix of them.
        ensures writer { ForSome (W.contents self.old.writer) (λ before. IsPut before bytes.now result (W.contents self.new.writer)) }
    {
        let answer = write_whole(&mut self.writer, bytes);
        if let Err(IoFault::Failed) = &answer {
            self.faults = self.faults.saturating_add(1);
        }
        answer
    }
}

/// Writes all of these bytes, and flushes the writer. A write that takes nothing is Failed. Memory comes
/// where the first write says that memory is short: then nothing was written.
pub fn write_whole<W: Write>(writer: &mut W, bytes: &[u8]) -> Result<(), IoFault>
    ensures { ForSome (W.contents writer.old) (λ before. IsPut before bytes.now result (W.contents writer.new)) }
{
    let mut written = 0;
    for _ in 0..u64::MAX {
        if written == bytes.len() {
            return flush(writer);
        }
        match writer.write(&bytes[written..]) {
            Ok(0) => return Err(IoFault::Failed),
            Ok(count) => written += count,
            Err(error) => {
                if error.kind() != ErrorKind::Interrupted {
                    return Err(write_fault(written, &error));
                }
            }
        }
    }
    Err(IoFault::Failed)
}

/// What it means for a put that a write failed so after so many bytes.
fn write_fault(written: usize, error: &io::Error) -> IoFault
    ensures { result ≡ IoFault.Memory → written ≡ 0 }
{
    if written > 0 {
        return IoFault::Failed;
    }
    system_fault(error)
}

/// Flushes the writer.
fn flush<W: Write>(writer: &mut W) -> Result<(), IoFault>
    ensures kept { Keeps (W.contents writer.old) (W.contents writer.new) }
    ensures failed { IfErr result (λ fault. fault ≡ IoFault.Failed) }
{
    for _ in 0..u64::MAX {
        match writer.flush() {
            Ok(()) => return Ok(()),
            Err(error) => {
                if error.kind() != ErrorKind::Interrupted {
                    return Err(IoFault::Failed);
                }
            }
        }
    }
    Err(IoFault::Failed)
}
