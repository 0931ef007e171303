//! Readers and writers for tests.

use std::io;
use std::io::{ErrorKind, Read, Write};

/// A reader that gives a byte `7` at each of its first reads and then fails, always in the same way.
#[derive(Clone, Copy)]
pub struct FailingReader {
    pub good_reads: u32,
    pub kind: ErrorKind,
    /// How many reads failed.
    pub failures: u32,
}

impl Read for FailingReader {
    fn read(&mut self, buf: &mut [u8]) -> io::Result<usize> {
        if self.good_reads == 0 {
            self.failures = self.failures.saturating_add(1);
            return Err(io::Error::from(self.kind));
        }
        self.good_reads -= 1;
        if buf.is_empty() {
            return Ok(0);
        }
        buf[0] = 7;
        Ok(1)
    }
}

/// A reader of whose reads each second one is interrupted.
#[derive(Clone, Copy)]
pub struct InterruptedReader<'a> {
    pub is_next_interrupted: bool,
    pub bytes: &'a [u8],
    /// How many reads were interrupted.
    pub interrupts: u32,
}

impl Read for InterruptedReader<'_> {
    fn read(&mut self, buf: &mut [u8]) -> io::Result<usize> {
        self.is_next_interrupted = !self.is_next_interrupted;
        if !self.is_next_interrupted {
            self.interrupts = self.interrupts.saturating_add(1);
            return Err(io::Error::from(ErrorKind::Interrupted));
        }
        let room = buf.len().min(2);
        self.bytes.read(&mut buf[..room])
    }
}

/// A writer that takes all and loses it: each flush fails.
#[derive(Clone, Copy)]
pub struct LosingWriter;

impl Write for LosingWriter {
    fn write(&mut self, buf: &[u8]) -> io::Result<usize> {
        Ok(buf.len())
    }

    fn flush(&mut self) -> io::Result<()> {
        Err(io::Error::from(ErrorKind::StorageFull))
    }
}
