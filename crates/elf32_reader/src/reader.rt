//! Reads a file: tests every header first, then copies the bytes of the segments.
ghost use Rattle.std.specs.Prelude.{◌≡◌, ◌≢◌, ◌≤◌, Some, None, IfOk, IfErr};
ghost use Rattle.elf32_reader.specs.Format.{segment_limit};
ghost use Rattle.elf32_reader.specs.Fields.{file_header, HasHeader};
ghost use Rattle.elf32_reader.specs.Segments.{segments_of, image_of};
ghost use Rattle.elf32_reader.specs.Summaries.{summary_of};
ghost use Rattle.elf32_reader.specs.Refusals.{first_applying, first_refusal, table_refusals, IsFaultOf, Tests};

use crate::fault::ElfFault;
use crate::file_header::{FileHeader, SEGMENT_LIMIT};
use crate::image::Image;
use crate::image_segment::ImageSegment;
use crate::summary::Summary;
use std::alloc::{AllocError, Global};

/// Reads a file. No memory is taken for a file that is refused. For another one the bytes that it has of
/// each segment are copied once.
#[tactic(auto, using(crate::proofs::Apart::memory_apart))]
pub fn read(alloc: Global, file: &[u8]) -> Result<Image, ElfFault>
    // An image is given only where no refusal applies, and is the one that the file describes.
    ensures ok { IfOk result (λ image. (first_refusal file.now ≡ None) × (image ≡ image_of file.now)) }
    // Else the first refusal that applies is given, or OutOfMemory where none does.
    ensures refused { IfErr result (IsFaultOf file.now) }
    // OutOfMemory is no refusal.
    ensures apart { first_refusal file.now ≢ Some ElfFault.OutOfMemory }
{
    let header = FileHeader::read(file)?;
    let summary = survey(file, &header)?;
    summary.test(header.e_entry)?;
    match load(alloc, file, &header) {
        Ok(segments) => Ok(Image::new(header.e_entry, segments)),
        Err(_) => Err(ElfFault::OutOfMemory),
    }
}

/// Tests each program header, and gives the summary of the segments.
fn survey(file: &[u8], header: &FileHeader) -> Result<Summary, ElfFault>
    requires file { HasHeader file.now header.now }
    requires few { header.now.e_phnum ≤ segment_limit }
    ensures tests { Tests result (table_refusals file.now (file_header file.now).e_phnum) }
    ensures summary { IfOk result (λ summary. summary ≡ summary_of (file_header file.now).e_entry (segments_of file.now)) }
{
    let mut summary = Summary::NONE;
    for row in 0..usize::from(header.e_phnum) {
        let program_header = header.program_header(file, row);
        program_header.test(file, summary.last_page)?;
        if program_header.is_segment() {
            summary = summary.with(&program_header, header.e_entry);
        }
    }
    Ok(summary)
}

/// The segments of a file whose program headers aren't refused.
fn load(alloc: Global, file: &[u8], header: &FileHeader) -> Result<Vec<ImageSegment>, AllocError>
    requires file { HasHeader file.now header.now }
    requires tested { first_applying (table_refusals file.now (file_header file.now).e_phnum) ≡ None }
    ensures { IfOk result (λ segments. segments.items ≡ segments_of file.now) }
{
    let mut segments = Vec::new(alloc);
    for row in 0..usize::from(header.e_phnum) {
        let program_header = header.program_header(file, row);
        if program_header.is_segment() {
            segments.push(program_header.load(alloc, file)?)?;
        }
    }
    Ok(segments)
}
