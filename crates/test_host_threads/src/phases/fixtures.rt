//! Jobs and memories of guest programs.

ghost use Rattle.std.specs.Prelude.{◌≡◌, ◌%◌};

use anyhow::{Result, anyhow};
use data_guest_programs::{CODE, Program};
use elf32_reader::read;
use hart::Hart;
use paged_memory::Snapshot;
use parallel_phase::Job;
use std::alloc::Global;

/// As many instructions as a thread may execute at most.
pub const BOUND: u64 = 1 << 40;

/// The memory that a program begins with.
pub fn base_of(alloc: Global, program: &Program) -> Result<Snapshot> {
    let file = program.file(alloc)?;
    base_of_file(alloc, &file)
}

/// The memory that the program of a file begins with.
pub fn base_of_file(alloc: Global, file: &[u8]) -> Result<Snapshot> {
    match read(alloc, file) {
        Ok(image) => Ok(Snapshot::of_image(alloc, &image)?),
        Err(fault) => Err(anyhow!("elf refused: {fault}")),
    }
}

/// The address of an instruction of a program, counted from 0.
pub fn address_of(instruction: u16) -> u32
    ensures { result % 4 ≡ 0 }
{
    CODE + 4 * u32::from(instruction)
}

/// The job of a thread that begins at an instruction of its program, with this number in x11.
pub fn job_at(instruction: u16, number: u8) -> Job {
    Job {
        hart: Hart::new(address_of(instruction), 0, 0, u32::from(number)),
        left: BOUND,
        quantum: None,
    }
}
