//! The sections of a file of 32 bits (System V ABI, Section Header): how many symbols it has, and whether it has DWARF.
ghost use Rattle.std.specs.Prelude.{◌≡◌, ◌++◌, ◌+◌, ◌*◌, ◌^◌, ◌<◌, ◌≤◌, IfSome, OnOk, length};
ghost use Rattle.std.specs.String.{string_bytes};
ghost use Rattle.file_facts.specs.Fields.{word_at};
ghost use Rattle.file_facts.specs.Format.{header_size, section_header_size};
ghost use Rattle.file_facts.specs.Sections as spec;

use crate::fields::{half, word};
use std::alloc::AllocError;

/// The bytes of a section header.
const SECTION_HEADER_SIZE: usize = 40;

/// The bytes of a symbol.
const SYMBOL_SIZE: u32 = 16;

/// The type of a section that is a symbol table.
const SHT_SYMTAB: u32 = 2;

/// The name of the section with DWARF's entries, and the byte 0 behind it.
const DEBUG_INFO: &[u8] = b".debug_info\0";

/// A section that is looked for.
#[derive(Clone, Copy)]
pub(crate) enum Wanted {
    /// The symbol table.
    Symbols,
    /// DWARF's entries.
    Debugging,
}

/// How many section headers a file has.
#[tactic(auto, unfolding(crate::specs::Sections::section_count))]
fn section_count(file: &[u8]) -> usize
    requires { header_size ≤ length file.now }
    ensures count { result ≡ spec.section_count file.now }
    ensures inside { 0 < result → word_at file.now 32 + section_header_size * result ≤ length file.now }
{
    if usize::from(half(file, 46)) != SECTION_HEADER_SIZE {
        return 0;
    }
    let count = usize::from(half(file, 48));
    if word(file, 32) as usize + SECTION_HEADER_SIZE * count <= file.len() {
        count
    } else {
        0
    }
}

/// Where the names of a file's sections are, 0 if it has none.
#[tactic(auto, unfolding(crate::specs::Sections::names_start))]
fn names_start(file: &[u8]) -> usize
    requires { header_size ≤ length file.now }
    ensures start { result ≡ spec.names_start file.now }
    ensures fits { result < 2 ^ 32 }
{
    let row = usize::from(half(file, 50));
    if row < section_count(file) {
        word(
            file,
            word(file, 32) as usize + SECTION_HEADER_SIZE * row + 16,
        ) as usize
    } else {
        0
    }
}

/// Whether the section whose header begins at an offset is a wanted one.
#[tactic(auto, unfolding(crate::specs::Sections::is_wanted))]
fn is_wanted(file: &[u8], wanted: Wanted, start: usize) -> bool
    requires whole { header_size ≤ length file.now }
    requires inside { start + section_header_size ≤ length file.now }
    ensures { result ≡ spec.is_wanted file.now wanted start }
{
    match wanted {
        Wanted::Symbols => word(file, start + 4) == SHT_SYMTAB,
        Wanted::Debugging => begins_so(file, names_start(file) + word(file, start) as usize),
    }
}

/// Whether the name of the section with DWARF's entries is at an offset.
fn begins_so(file: &[u8], offset: usize) -> bool
    ensures { result ≡ spec.begins_so file.now offset }
{
    let start = offset.min(file.len());
    file[start..].starts_with(DEBUG_INFO)
}

/// The first wanted section of a file.
#[tactic(auto, unfolding(crate::specs::Sections::first_of))]
fn wanted_in(file: &[u8], wanted: Wanted) -> Option<usize>
    requires { header_size ≤ length file.now }
    ensures section { result ≡ spec.wanted_in file.now wanted }
    ensures inside { IfSome result (λ row. spec.section_start file.now row + section_header_size ≤ length file.now) }
{
    let mut found = None;
    for row in 0..section_count(file) {
        let start = word(file, 32) as usize + SECTION_HEADER_SIZE * row;
        if found.is_none() && is_wanted(file, wanted, start) {
            found = Some(row);
        }
    }
    found
}

/// How many symbols a file has.
fn symbol_count(file: &[u8]) -> u32
    requires { header_size ≤ length file.now }
    ensures { result ≡ spec.symbols_in file.now (spec.wanted_in file.now Wanted.Symbols) }
{
    match wanted_in(file, Wanted::Symbols) {
        Some(row) => {
            word(
                file,
                word(file, 32) as usize + SECTION_HEADER_SIZE * row + 20,
            ) / SYMBOL_SIZE
        }
        None => 0,
    }
}

/// Appends the line of a file's symbols, and that of its DWARF.
#[tactic(auto, unfolding(crate::specs::Sections::sections_text))]
pub(crate) fn write_sections(text: &mut String, file: &[u8]) -> Result<(), AllocError>
    requires { header_size ≤ length file.now }
    ensures { OnOk result (string_bytes text.new ≡ string_bytes text.old ++ spec.sections_text file.now) }
{
    let count = symbol_count(file);
    write!(text, "symbols: {count}\nDWARF: ")?;
    text.push_str(if wanted_in(file, Wanted::Debugging).is_none() {
        "no\n"
    } else {
        "yes\n"
    })
}
