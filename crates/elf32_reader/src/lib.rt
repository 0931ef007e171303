//! Reads statically linked ELF files for RV32IM (System V ABI, ELF32) into images.
#![tactic(auto)]

pub mod fault;
mod fields;
mod file_header;
pub mod image;
pub mod image_segment;
mod program_header;
pub mod reader;
mod summary;

pub use fault::ElfFault;
pub use file_header::FILE_LIMIT;
pub use image::Image;
pub use image_segment::ImageSegment;
pub use reader::read;
