//! A standard output for tests.

use std::alloc::Global;
use std::io;
use std::io::{ErrorKind, Write};

/// A writer that takes a few bytes a write, each second one of which is interrupted first, and whose flushes fail after some good ones.
#[derive(Drop)]
pub struct LosingWriter {
    pub taken: Vec<u8>,
    /// How many bytes a write takes at most.
    most: usize,
    pub good_flushes: u32,
    is_next_interrupted: bool,
}

impl LosingWriter {
    /// A writer that took nothing.
    pub fn new(alloc: Global, most: usize, good_flushes: u32) -> Self {
        LosingWriter {
            taken: Vec::new(alloc),
            most,
            good_flushes,
            is_next_interrupted: false,
        }
    }
}

impl Write for LosingWriter {
    fn write(&mut self, buf: &[u8]) -> io::Result<usize> {
        self.is_next_interrupted = !self.is_next_interrupted;
        if self.is_next_interrupted {
            return Err(io::Error::from(ErrorKind::Interrupted));
        }
        let count = buf.len().min(self.most);
        self.taken.extend_from_slice(&buf[..count])?;
        Ok(count)
    }

    fn flush(&mut self) -> io::Result<()> {
        if self.good_flushes == 0 {
            return Err(io::Error::from(ErrorKind::StorageFull));
        }
        self.good_flushes -= 1;
        Ok(())
    }
}
