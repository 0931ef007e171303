//! The guests whose phases are run.
ghost use Rattle.std.specs.Prelude.{◌≡◌, length};

use data_guest_programs::{
    CODE, COUNTER, ECHO, LETTER, Program, QUOTIENTS, RACE, RELEASE_RACE, SIGNAL,
};
use elf32_reader::read;
use guest_memory::layout::STACK_POINTER;
use hart::Hart;
use paged_memory::Snapshot;
use parallel_phase::Job;
use std::alloc::{AllocError, Global};

/// A program, and how many instructions each of its jobs may execute.
pub struct Guest {
    pub program: &'static Program,
    pub bound: u64,
}

/// A bound that no job reaches.
const FAR: u64 = 1 << 40;

/// The guests.
pub static GUESTS: [Guest; 7] = [
    Guest {
        program: &QUOTIENTS,
        bound: FAR,
    },
    Guest {
        program: &RACE,
        bound: FAR,
    },
    Guest {
        program: &SIGNAL,
        bound: FAR,
    },
    Guest {
        program: &COUNTER,
        bound: 60,
    },
    Guest {
        program: &LETTER,
        bound: FAR,
    },
    Guest {
        program: &ECHO,
        bound: FAR,
    },
    Guest {
        program: &RELEASE_RACE,
        bound: FAR,
    },
];

/// The job of a thread that begins at its guest's entry, with this number.
fn job_of(guest: &Guest, number: u32) -> Job {
    Job {
        hart: Hart::new(CODE, STACK_POINTER, 0, number),
        left: guest.bound,
        quantum: None,
    }
}

/// Four jobs of a guest.
pub fn jobs_of(guest: &Guest) -> [Job; 4] {
    [
        job_of(guest, 0),
        job_of(guest, 1),
        job_of(guest, 2),
        job_of(guest, 3),
    ]
}

/// The memory that a guest begins with. None where its file was refused, which only want of memory does.
pub fn memory_of(alloc: Global, guest: &Guest) -> Result<Option<Snapshot>, AllocError> {
    let file = guest.program.file(alloc)?;
    match read(alloc, &file) {
        Ok(image) => Ok(Some(Snapshot::of_image(alloc, &image)?)),
        Err(_) => Ok(None),
    }
}
