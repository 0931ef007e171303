//! A section of a file (System V ABI, Section Header): its fields, and its bytes.
ghost use Rattle.std.specs.Prelude.{◌≡◌, ◌+◌, ◌≤◌, Some, length};
ghost use Rattle.symbols.specs.Format.{section_header_size};

use crate::fields::word;

/// The bytes of a section header.
pub(crate) const SECTION_HEADER_SIZE: usize = 40;

/// The type of a section that is a symbol table.
pub(crate) const SHT_SYMTAB: u32 = 2;

/// A section header (System V ABI, Section Header), as far as it is looked at.
#[derive(Clone, Copy)]
pub(crate) struct Section {
    pub(crate) sh_type: u32,
    pub(crate) sh_offset: u32,
    pub(crate) sh_size: u32,
    pub(crate) sh_link: u32,
}

impl Section {
    ghost use Rattle.symbols.specs.Sections.{bytes_of, section_at};

    /// The section header at an offset.
    #[tactic(auto, unfolding(crate::specs::Sections::section_at))]
    pub(crate) fn at(file: &[u8], offset: usize) -> Section
        requires { offset + section_header_size ≤ length file.now }
        ensures { result ≡ section_at file.now offset }
    {
        Section {
            sh_type: word(file, offset + 4),
            sh_offset: word(file, offset + 16),
            sh_size: word(file, offset + 20),
            sh_link: word(file, offset + 24),
        }
    }

    /// Its bytes, none if they pass the file's end.
    pub(crate) fn bytes(self, file: &[u8]) -> &[u8]
        ensures { result.now ≡ bytes_of file.now (Some self) }
    {
        let start = self.sh_offset as usize;
        let end = start + self.sh_size as usize;
        if end <= file.len() {
            &file[start..end]
        } else {
            &[]
        }
    }
}
