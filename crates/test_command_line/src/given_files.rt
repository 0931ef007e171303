//! Files for tests: a program and a schedule in memory.

use output_files::{BeginFault, FileName, Files, ReadFault, WriteFault, read_upto};
use std::alloc::Global;
use std::io::Write;

/// The path of the program.
pub const PROGRAM: &str = "a.elf";

/// The path of the schedule.
pub const SCHEDULE: &str = "schedule";

/// A program and a schedule. Each text can be written.
#[derive(Drop)]
pub struct GivenFiles {
    pub alloc: Global,
    pub program: Vec<u8>,
    pub schedule: &'static str,
    /// Whether a text was put in its file's place.
    pub is_written: bool,
}

impl Files for GivenFiles {
    type Output = Vec<u8>;

    fn read(&self, alloc: Global, path: &str, limit: usize) -> Result<Vec<u8>, ReadFault> {
        let mut bytes = match path {
            PROGRAM => self.program.as_slice(),
            SCHEDULE => self.schedule.as_bytes(),
            _ => return Err(ReadFault::ReadFailed),
        };
        read_upto(alloc, &mut bytes, limit)
    }

    fn is_one_file(
        &self,
        alloc: Global,
        one: FileName<'_>,
        other: FileName<'_>,
    ) -> Result<bool, WriteFault> {
        Ok(one.text(alloc)? == other.text(alloc)?)
    }

    fn begin(&mut self, alloc: Global, _path: &str) -> Result<Vec<u8>, BeginFault> {
        Ok(Vec::new(alloc))
    }

    fn begin_aside(&mut self) -> Result<Vec<u8>, WriteFault> {
        Ok(Vec::new(self.alloc))
    }

    fn finish(&mut self, _path: &str, _output: Vec<u8>) -> Result<(), WriteFault> {
        self.is_written = true;
        Ok(())
    }

    fn copy<W: Write>(&mut self, output: Vec<u8>, writer: &mut W) -> Result<(), WriteFault> {
        match writer.write_all(output.as_slice()) {
            Ok(()) => Ok(writer.flush()?),
            Err(_) => Err(WriteFault::WriteFailed),
        }
    }

    fn abandon(&mut self, _path: &str, _output: Vec<u8>) {}

    fn abandon_aside(&self, _output: Vec<u8>) {}
}
