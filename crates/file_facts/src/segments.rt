//! The segments of a file of 32 bits (System V ABI, Program Header), and their lines.
ghost use Rattle.std.specs.Prelude.{◌≡◌, ◌++◌, ◌+◌, ◌*◌, ◌<◌, ◌≤◌, OnOk, length};
ghost use Rattle.std.specs.String.{string_bytes};
ghost use Rattle.file_facts.specs.Fields.{word_at};
ghost use Rattle.file_facts.specs.Format.{header_size, program_header_size};
ghost use Rattle.file_facts.specs.Segments as spec;

use crate::fields::{half, word};
use std::alloc::AllocError;
use text_output::write_hexadecimal;

/// The bytes of a program header.
const PROGRAM_HEADER_SIZE: usize = 32;

/// The type of segments to be loaded.
const PT_LOAD: u32 = 1;

/// How many program headers a file has.
#[tactic(auto, unfolding(crate::specs::Segments::segment_count))]
fn segment_count(file: &[u8]) -> usize
    requires { header_size ≤ length file.now }
    ensures count { result ≡ spec.segment_count file.now }
    ensures inside { 0 < result → word_at file.now 28 + program_header_size * result ≤ length file.now }
{
    if usize::from(half(file, 42)) != PROGRAM_HEADER_SIZE {
        return 0;
    }
    let count = usize::from(half(file, 44));
    if word(file, 28) as usize + PROGRAM_HEADER_SIZE * count <= file.len() {
        count
    } else {
        0
    }
}

/// Appends the lines of a file's segments.
#[tactic(auto, unfolding(crate::specs::Segments::segments_before))]
pub(crate) fn write_segments(text: &mut String, file: &[u8]) -> Result<(), AllocError>
    requires { header_size ≤ length file.now }
    ensures { OnOk result (string_bytes text.new ≡ string_bytes text.old ++ spec.segments_text file.now) }
{
    for row in 0..segment_count(file) {
        let start = word(file, 28) as usize + PROGRAM_HEADER_SIZE * row;
        write_segment(text, file, start)?;
    }
    Ok(())
}

/// Appends the line of the program header at an offset, if its segment is to be loaded.
#[tactic(auto, unfolding(crate::specs::Segments::segment_at))]
fn write_segment(text: &mut String, file: &[u8], start: usize) -> Result<(), AllocError>
    requires { start + program_header_size ≤ length file.now }
    ensures { OnOk result (string_bytes text.new ≡ string_bytes text.old ++ spec.segment_at file.now start) }
{
    if word(file, start) == PT_LOAD {
        write_loaded(text, file, start)
    } else {
        Ok(())
    }
}

/// Appends the line of a segment to be loaded, as `segment: 00010000 memory=00000abc file=00000abc r-x`.
#[tactic(auto, unfolding(crate::specs::Segments::loaded_text))]
fn write_loaded(text: &mut String, file: &[u8], start: usize) -> Result<(), AllocError>
    requires { start + program_header_size ≤ length file.now }
    ensures { OnOk result (string_bytes text.new ≡ string_bytes text.old ++ spec.loaded_text file.now start) }
{
    write_field(text, "segment: ", word(file, start + 8))?;
    write_field(text, " memory=", word(file, start + 20))?;
    write_field(text, " file=", word(file, start + 16))?;
    text.push_str(" ")?;
    write_flags(text, word(file, start + 24))?;
    text.push_str("\n")
}

/// Appends a word behind its name.
#[tactic(auto, unfolding(crate::specs::Segments::field_text))]
fn write_field(text: &mut String, name: &str, word: u32) -> Result<(), AllocError>
    ensures { OnOk result (string_bytes text.new ≡ string_bytes text.old ++ spec.field_text name.now word) }
{
    text.push_str(name)?;
    write_hexadecimal(text, 8, word)
}

/// Appends what the pages of a segment permit, as `r-x`.
#[tactic(auto, unfolding(crate::specs::Segments::flags_text))]
fn write_flags(text: &mut String, flags: u32) -> Result<(), AllocError>
    ensures { OnOk result (string_bytes text.new ≡ string_bytes text.old ++ spec.flags_text flags) }
{
    text.push_str(letter(flags, 4, "r"))?;
    text.push_str(letter(flags, 2, "w"))?;
    text.push_str(letter(flags, 1, "x"))
}

/// A letter for a flag, a power of two, and a dash if it is not there.
fn letter(flags: u32, flag: u32, name: &'static str) -> &'static str
    requires { 0 < flag }
    ensures { result.now ≡ spec.letter flags flag name.entry.now }
{
    if flags / flag % 2 == 1 { name } else { "-" }
}
