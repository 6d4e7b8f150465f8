// Readers and writers that do little at a time, are interrupted, or fail.
use std::alloc::Global;
use std::io::{self, ErrorKind, Read, Write};

/// Gives a byte a call, and is interrupted before each.
#[derive(Drop)]
pub(crate) struct SlowReader {
    pub bytes: &'static [u8],
    pub is_interrupted: bool,
}

impl Read for SlowReader {
    fn read(&mut self, buf: &mut [u8]) -> io::Result<usize> {
        self.is_interrupted = !self.is_interrupted;
        if self.is_interrupted {
            return Err(ErrorKind::Interrupted.into());
        }
        if self.bytes.is_empty() || buf.is_empty() {
            return Ok(0);
        }
        buf[0] = self.bytes[0];
        self.bytes = &self.bytes[1..];
        Ok(1)
    }
}

/// Fails so at each read.
#[derive(Drop)]
pub(crate) struct BrokenReader(pub ErrorKind);

impl Read for BrokenReader {
    fn read(&mut self, _buf: &mut [u8]) -> io::Result<usize> {
        Err(self.0.into())
    }
}

/// Takes a byte a call, is interrupted before each, and has room for so many.
#[derive(Drop)]
pub(crate) struct SlowWriter {
    pub bytes: Vec<u8>,
    room: usize,
    when_full: Option<ErrorKind>,
    is_interrupted: bool,
}

impl SlowWriter {
    pub(crate) fn new(alloc: Global, room: usize, when_full: Option<ErrorKind>) -> SlowWriter {
        SlowWriter {
            bytes: Vec::new(alloc),
            room,
            when_full,
            is_interrupted: false,
        }
    }
}

impl Write for SlowWriter {
    fn write(&mut self, buf: &[u8]) -> io::Result<usize> {
        self.is_interrupted = !self.is_interrupted;
        if self.is_interrupted {
            return Err(ErrorKind::Interrupted.into());
        }
        if self.bytes.len() >= self.room {
            return match self.when_full {
                Some(kind) => Err(kind.into()),
                None => Ok(0),
            };
        }
        if buf.is_empty() {
            return Ok(0);
        }
        self.bytes.push(buf[0])?;
        Ok(1)
    }

    fn flush(&mut self) -> io::Result<()> {
        self.is_interrupted = !self.is_interrupted;
        if self.is_interrupted {
            return Err(ErrorKind::Interrupted.into());
        }
        Ok(())
    }
}
