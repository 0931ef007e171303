//! Lines on the image that was read.

use crate::answer::Answer;
use crate::perms::write_perm;
use disassembler::listing;
use elf32_reader::{Image, ImageSegment};
use std::alloc::{AllocError, Global};

/// Answers a line on an image, if it is one.
pub fn take_image_line(
    alloc: Global,
    answer: &mut Answer,
    image: &Image,
    verb: &str,
) -> Result<bool, AllocError> {
    match verb {
        "entry" => answer.number(image.entry()),
        "segments" => write_segments(answer, image.segments()),
        "count" => answer.count(image.segments().len() as u64),
        "listing" => {
            let lines = listing(alloc, image)?;
            answer.push(lines.as_str().replace(alloc, "\n", ";")?.as_str());
        }
        _ => return Ok(false),
    }
    Ok(true)
}

/// Writes the address, the size in memory, the permissions and the bytes of each segment.
fn write_segments(answer: &mut Answer, segments: &[ImageSegment]) {
    for segment in segments {
        answer.numbers(&[segment.vaddr(), segment.memsz()]);
        write_perm(answer, Some(segment.flags()));
        answer.push(" ");
        answer.bytes(segment.bytes());
        answer.push(",");
    }
}
