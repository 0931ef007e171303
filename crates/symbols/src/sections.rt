//! The sections of a file: all of them, the symbol table, and its string table.
ghost use Rattle.std.specs.Prelude.{◌≡◌, ◌+◌, ◌*◌, ◌<◌, ◌≤◌, IfOk, length};
ghost use Rattle.symbols.specs.Fields.{word_at};
ghost use Rattle.symbols.specs.Format.{header_size, section_header_size};
ghost use Rattle.symbols.specs.Sections as spec;

use crate::fields::{half, word};
use crate::section::{SECTION_HEADER_SIZE, SHT_SYMTAB, Section};
use std::alloc::{AllocError, Global};

/// The bytes of a file's header.
const HEADER_SIZE: usize = 52;

/// The section headers of a file.
pub(crate) fn sections(alloc: Global, file: &[u8]) -> Result<Vec<Section>, AllocError>
    ensures { IfOk result (λ sections. sections.items ≡ spec.sections_of file.now) }
{
    let mut sections = Vec::new(alloc);
    for row in 0..section_count(file) {
        let start = word(file, 32) as usize;
        sections.push(Section::at(file, start + SECTION_HEADER_SIZE * row))?;
    }
    Ok(sections)
}

/// How many section headers a file has.
#[tactic(auto, unfolding(crate::specs::Sections::section_count))]
fn section_count(file: &[u8]) -> usize
    ensures count { result ≡ spec.section_count file.now }
    ensures whole { 0 < result → header_size ≤ length file.now }
    ensures inside { 0 < result → word_at file.now 32 + section_header_size * result ≤ length file.now }
{
    if file.len() < HEADER_SIZE || usize::from(half(file, 46)) != SECTION_HEADER_SIZE {
        return 0;
    }
    let count = usize::from(half(file, 48));
    if word(file, 32) as usize + SECTION_HEADER_SIZE * count <= file.len() {
        count
    } else {
        0
    }
}

/// The symbol table among some sections.
pub(crate) fn symbol_table(sections: &[Section]) -> Option<Section>
    ensures { result ≡ spec.symbol_table sections.now }
{
    sections
        .iter()
        .find(|section| section.sh_type == SHT_SYMTAB)
        .copied()
}

/// The string table of the symbol table.
pub(crate) fn string_table(sections: &[Section]) -> Option<Section>
    ensures { result ≡ spec.string_table sections.now }
{
    let table = symbol_table(sections)?;
    sections.get(table.sh_link as usize).copied()
}

/// The bytes of a section, none if it isn't there.
pub(crate) fn bytes_of(file: &[u8], section: Option<Section>) -> &[u8]
    ensures { result.now ≡ spec.bytes_of file.now section }
{
    match section {
        Some(section) => section.bytes(file),
        None => &[],
    }
}
