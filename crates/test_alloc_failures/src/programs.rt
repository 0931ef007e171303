//! Images of guest programs.
use crate::failed::Failed;
use crate::retry::again;
use data_guest_programs::Program;
use elf32_reader::{Image, read};
use std::alloc::Global;

/// The image of a guest program.
pub fn image_of(alloc: Global, program: &Program) -> Result<Image, Failed> {
    let file = program.file(alloc)?;
    image_in(alloc, &file)
}

/// The image that a file is read as.
fn image_in(alloc: Global, file: &[u8]) -> Result<Image, Failed> {
    again!(read(alloc, file))
}
