//! The text of a file.
ghost use Rattle.std.specs.Prelude.{◌≡◌, ◌++◌, ◌≤◌, IfOk, OnOk, length};
ghost use Rattle.std.specs.String.{string_bytes};
ghost use Rattle.file_facts.specs.Facts as spec;
ghost use Rattle.file_facts.specs.Format.{header_size};

use crate::fields::word;
use crate::header::{is_elf, is_elf32, write_header};
use crate::reasons::write_reason;
use crate::sections::write_sections;
use crate::segments::write_segments;
use elf32_reader::ElfFault;
use std::alloc::{AllocError, Global};
use text_output::write_hexadecimal;

/// The text of a file: what it is for, and, of an ELF file of 32 bits, its flags, its entry, a line for each segment to be loaded, how
/// many symbols it has, and whether it has DWARF. Then it says whether the file is refused as a program, and why. `refusal` is the
/// first one that applies, none if none does.
///
/// # Errors
///
/// Only out of memory.
#[tactic(auto, unfolding(crate::specs::Facts::facts_of))]
pub fn facts_text(
    alloc: Global,
    file: &[u8],
    refusal: Option<ElfFault>,
) -> Result<String, AllocError>
    ensures { IfOk result (λ text. string_bytes text ≡ spec.facts_of file.now refusal) }
{
    let mut text = String::new(alloc);
    write_known(&mut text, file)?;
    write_details(&mut text, file)?;
    write_verdict(&mut text, file, refusal)?;
    Ok(text)
}

/// Appends the line of an ELF file.
#[tactic(auto, unfolding(crate::specs::Facts::known_text))]
fn write_known(text: &mut String, file: &[u8]) -> Result<(), AllocError>
    ensures { OnOk result (string_bytes text.new ≡ string_bytes text.old ++ spec.known_text file.now) }
{
    if is_elf(file) {
        write_header(text, file)
    } else {
        Ok(())
    }
}

/// Appends the lines of an ELF file of 32 bits.
#[tactic(auto, unfolding(crate::specs::Facts::details_text))]
fn write_details(text: &mut String, file: &[u8]) -> Result<(), AllocError>
    ensures { OnOk result (string_bytes text.new ≡ string_bytes text.old ++ spec.details_text file.now) }
{
    if is_elf32(file) {
        write_parts(text, file)
    } else {
        Ok(())
    }
}

/// Appends the lines of a file of 32 bits.
#[tactic(auto, unfolding(crate::specs::Facts::parts_text))]
fn write_parts(text: &mut String, file: &[u8]) -> Result<(), AllocError>
    requires { header_size ≤ length file.now }
    ensures { OnOk result (string_bytes text.new ≡ string_bytes text.old ++ spec.parts_text file.now) }
{
    write_fields(text, file)?;
    write_segments(text, file)?;
    write_sections(text, file)
}

/// Appends the lines of a file's flags and its entry.
#[tactic(auto, unfolding(crate::specs::Facts::fields_text))]
fn write_fields(text: &mut String, file: &[u8]) -> Result<(), AllocError>
    requires { header_size ≤ length file.now }
    ensures { OnOk result (string_bytes text.new ≡ string_bytes text.old ++ spec.fields_text file.now) }
{
    text.push_str("flags: ")?;
    write_hexadecimal(text, 8, word(file, 36))?;
    text.push_str("\nentry: ")?;
    write_hexadecimal(text, 8, word(file, 24))?;
    text.push_str("\n")
}

/// Appends whether a file is refused as a program.
fn write_verdict(
    text: &mut String,
    file: &[u8],
    refusal: Option<ElfFault>,
) -> Result<(), AllocError>
    ensures { OnOk result (string_bytes text.new ≡ string_bytes text.old ++ spec.verdict_text file.now refusal) }
{
    let Some(fault) = refusal else {
        return text.push_str("dthreads runs it\n");
    };
    text.push_str("refused: ")?;
    write_reason(text, file, fault)?;
    text.push_str("\n")
}
