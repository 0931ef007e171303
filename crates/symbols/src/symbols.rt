//! The objects and functions of a file, looked up by address.
ghost use Rattle.std.specs.Prelude.{◌≡◌, IfOk, filter, option_map};
ghost use Rattle.symbols.specs.Covering.{IsFirstOf, covering, covers, place_at, told};
ghost use Rattle.symbols.specs.Symbols.{symbols_of};

use crate::covering::place_in;
use crate::entry::{STT_FUNC, STT_OBJECT};
use crate::kept_symbol::KeptSymbol;
use crate::reading::read_symbols;
use crate::sections::{bytes_of, sections, string_table, symbol_table};
use crate::symbol_offset::SymbolOffset;
use std::alloc::{AllocError, Global};
use std::marker::Model;

/// The objects and functions of a file: a copy of its string table, and what is kept of each symbol.
#[derive(Drop)]
pub struct Symbols {
    strings: Vec<u8>,
    objects: Vec<KeptSymbol>,
    functions: Vec<KeptSymbol>,
}

impl Model for Symbols {
    ghost use Rattle.std.specs.Prelude.{All};
    ghost use Rattle.symbols.specs.Symbol.{SymbolLists};
    ghost use Rattle.symbols.specs.Kept.{HasName, kept_symbols};

    ghost Value = { SymbolLists };

    ghost view = { λ s. record {
      objects = kept_symbols s.strings.items s.objects.items;
      functions = kept_symbols s.strings.items s.functions.items;
    } };

    ghost invariant = { λ s. All (HasName s.strings.items) s.objects.items × All (HasName s.strings.items) s.functions.items };
}

impl Symbols {
    /// The symbols of an ELF32 little-endian file (System V ABI, Symbol Table): the objects and functions of its first symbol table that
    /// are defined, have bytes, and have a name of 1 to 255 printable ASCII bytes without a space or `=`. No file is refused: what is
    /// damaged, missing or out of range is left out. The file is taken to be ELF32 and little-endian, whatever its first bytes are.
    ///
    /// # Errors
    ///
    /// Only out of memory.
    #[tactic(auto, unfolding(crate::specs::Symbols::symbols_of))]
    pub fn read(alloc: Global, elf: &[u8]) -> Result<Symbols, AllocError>
        ensures { IfOk result (λ symbols. symbols ≡ symbols_of elf.now) }
    {
        let sections = sections(alloc, elf)?;
        let table = bytes_of(elf, symbol_table(&sections));
        let strings = bytes_of(elf, string_table(&sections));
        Ok(Symbols {
            strings: Vec::from_slice(alloc, strings)?,
            objects: read_symbols(alloc, strings, table, STT_OBJECT)?,
            functions: read_symbols(alloc, strings, table, STT_FUNC)?,
        })
    }

    /// The object that covers an address, none if none does: of several the smallest, of those a global one, of those the first in the
    /// table.
    #[tactic(auto, using(crate::proofs::Law::covering_first))]
    pub fn object_at(&self, address: u32) -> Option<SymbolOffset<'_>>
        ensures place { option_map told result ≡ place_at self.now.objects address }
        // What is told is of the first one of those that cover the address.
        ensures first { IsFirstOf (filter (covers address) self.now.objects) (covering self.now.objects address) }
    {
        place_in(&self.strings, &self.objects, address)
    }

    /// The function that covers an address, chosen as an object is.
    #[tactic(auto, using(crate::proofs::Law::covering_first))]
    pub fn function_at(&self, address: u32) -> Option<SymbolOffset<'_>>
        ensures place { option_map told result ≡ place_at self.now.functions address }
        // What is told is of the first one of those that cover the address.
        ensures first { IsFirstOf (filter (covers address) self.now.functions) (covering self.now.functions address) }
    {
        place_in(&self.strings, &self.functions, address)
    }
}
