//! The listing of an image: a line for each word of its executable segments.
ghost use Rattle.std.specs.Prelude.{◌≡◌, ◌+◌, ◌≤◌, length, IfOk};
ghost use Rattle.std.specs.String.{string_bytes};
ghost use Rattle.disassembler.specs.Appended.{Appends};
ghost use Rattle.disassembler.specs.Listings.{word_from, word_line, has_word, segment_listing, listing_of};

use crate::disassembly::write_text;
use elf32_reader::{Image, ImageSegment};
use std::alloc::{AllocError, Global};
use text_output::write_hexadecimal;

/// The listing of a program: for each executable segment, in the order of the file, each word whose address
/// is a multiple of 4 and whose four bytes the file has, ascending. A line is the address, a colon and a
/// space, the word, a space, its text and a newline.
pub fn listing(alloc: Global, image: &Image) -> Result<String, AllocError>
    ensures { IfOk result (λ t. string_bytes t ≡ listing_of image.now) }
{
    let mut text = String::new(alloc);
    for segment in image.segments() {
        if segment.flags().execute {
            write_segment(&mut text, segment)?;
        }
    }
    Ok(text)
}

/// Appends the lines of a segment's words.
fn write_segment(text: &mut String, segment: &ImageSegment) -> Result<(), AllocError>
    ensures { Appends result text.old (segment_listing segment.now) text.new }
{
    let start = segment.vaddr();
    let bytes = segment.bytes();
    for index in 0..bytes.len() {
        let address = start + index as u32;
        if begins_word(segment, address) {
            write_word(text, address, read_word(bytes, index))?;
        }
    }
    Ok(())
}

/// Whether an address is a multiple of 4 and no byte of its word lies after the segment's file bytes.
fn begins_word(segment: &ImageSegment, address: u32) -> bool
    ensures { result ≡ has_word segment.now address }
{
    let end = segment.vaddr() as u64 + segment.bytes().len() as u64;
    address % 4 == 0 && address as u64 + 4 <= end
}

/// Appends a word's line.
fn write_word(text: &mut String, address: u32, word: u32) -> Result<(), AllocError>
    ensures { Appends result text.old (word_line address word) text.new }
{
    write_hexadecimal(text, 8, address)?;
    text.push_str(": ")?;
    write_hexadecimal(text, 8, word)?;
    text.push_str(" ")?;
    write_text(text, address, word)?;
    text.push_str("\n")
}

/// The word whose bytes stand from an index on, the lowest first.
fn read_word(bytes: &[u8], index: usize) -> u32
    requires { index + 4 ≤ length bytes.now }
    ensures { result ≡ word_from bytes.now index }
{
    u32::from_le_bytes([
        bytes[index],
        bytes[index + 1],
        bytes[index + 2],
        bytes[index + 3],
    ])
}
