//! A guest program with its runs, read from a file of `data/`.
use crate::guest_run::GuestRun;
use data_guest_programs::{file_with_zeros, words_of};
use std::alloc::{AllocError, Global};

/// A guest program, and its runs, as a file of `data/` says them.
#[derive(Drop)]
pub struct Guest {
    /// Its name, and that of its files.
    pub name: String,
    /// Whether `samples/` has its listing and its ELF file.
    pub is_sample: bool,
    /// Its listing as `dthreads disasm` prints it.
    pub listing: String,
    /// The segments of zeros after the code, each with its address and its size.
    pub zeros: Vec<(u32, u32)>,
    pub runs: Vec<GuestRun>,
}

impl Guest {
    /// A program of this name without an instruction or a run.
    pub fn new(alloc: Global, name: &str) -> Result<Self, AllocError> {
        Ok(Guest {
            name: String::from_str(alloc, name)?,
            is_sample: false,
            listing: String::new(alloc),
            zeros: Vec::new(alloc),
            runs: Vec::new(alloc),
        })
    }

    /// The bytes of its file.
    pub fn file(&self, alloc: Global) -> Result<Vec<u8>, AllocError> {
        let words = words_of(alloc, self.listing.as_str())?;
        file_with_zeros(alloc, &words, &self.zeros)
    }
}
