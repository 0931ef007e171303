//! An entry of a symbol table (System V ABI, Symbol Table): its fields.
ghost use Rattle.std.specs.Prelude.{◌≡◌, ◌+◌, ◌≤◌, length};
ghost use Rattle.symbols.specs.Format.{entry_size};

use crate::fields::{half, word};

/// The bytes of an entry.
pub(crate) const ENTRY_SIZE: usize = 16;

/// The type of data objects.
pub(crate) const STT_OBJECT: u8 = 1;

/// The type of functions.
pub(crate) const STT_FUNC: u8 = 2;

/// The binding of global symbols.
pub(crate) const STB_GLOBAL: u8 = 1;

/// The section of symbols that aren't defined.
pub(crate) const SHN_UNDEF: u16 = 0;

/// An entry (System V ABI, Symbol Table), as far as it is looked at.
#[derive(Clone, Copy)]
pub(crate) struct Entry {
    pub(crate) st_name: u32,
    pub(crate) st_value: u32,
    pub(crate) st_size: u32,
    pub(crate) st_info: u8,
    pub(crate) st_shndx: u16,
}

impl Entry {
    ghost use Rattle.symbols.specs.Entries.{entry_at};

    /// The entry at an offset.
    #[tactic(auto, unfolding(crate::specs::Entries::entry_at))]
    pub(crate) fn at(table: &[u8], offset: usize) -> Entry
        requires { offset + entry_size ≤ length table.now }
        ensures { result ≡ entry_at table.now offset }
    {
        Entry {
            st_name: word(table, offset),
            st_value: word(table, offset + 4),
            st_size: word(table, offset + 8),
            st_info: table[offset + 12],
            st_shndx: half(table, offset + 14),
        }
    }
}
