//! What is kept of a symbol, beside the string table.
ghost use Rattle.std.specs.Prelude.{◌≡◌, ◌⊎◌, ℕ, Some, IfSome, List, option_map};
ghost use Rattle.std.specs.Option.{option_map_or};
ghost use Rattle.symbols.specs.Covering as spec;
ghost use Rattle.symbols.specs.Symbols.{symbol_of};

use crate::entry::{Entry, SHN_UNDEF, STB_GLOBAL};
use crate::names::name_size;

/// A symbol: where its name is in the string table, its first address, its bytes, and whether it is global.
#[derive(Clone, Copy)]
pub(crate) struct KeptSymbol {
    pub(crate) name: u32,
    pub(crate) name_size: u8,
    pub(crate) is_global: bool,
    pub(crate) value: u32,
    pub(crate) size: u32,
}

impl KeptSymbol {
    ghost use Rattle.symbols.specs.Kept.{HasName, symbol_in};

    /// The symbol of a type that an entry describes, none if it is left out.
    #[tactic(auto, unfolding(crate::specs::Symbols::symbol_of))]
    pub(crate) fn of(strings: &[u8], kind: u8, entry: Entry) -> Option<KeptSymbol>
        ensures symbol { option_map (symbol_in strings.now) result ≡ symbol_of strings.now kind entry }
        ensures within { IfSome result (HasName strings.now) }
    {
        if entry.st_info % 16 != kind || entry.st_size == 0 || entry.st_shndx == SHN_UNDEF {
            return None;
        }
        let name_size = name_size(strings, entry.st_name)?;
        Some(KeptSymbol {
            name: entry.st_name,
            name_size,
            is_global: entry.st_info / 16 == STB_GLOBAL,
            value: entry.st_value,
            size: entry.st_size,
        })
    }

    /// Whether it covers an address.
    pub(crate) fn covers(&self, address: u32) -> bool
        ensures { (strings : List ℕ) → result ≡ spec.covers address (symbol_in strings self.now) }
    {
        self.value <= address && address - self.value < self.size
    }

    /// Whether it goes before another symbol.
    fn is_before(&self, other: &KeptSymbol) -> bool
        ensures { (strings : List ℕ) → result ≡ spec.is_before (symbol_in strings self.now) (symbol_in strings other.now) }
    {
        self.size < other.size || self.size == other.size && self.is_global && !other.is_global
    }

    /// The symbol that goes before the others, of this one and the first of those that are earlier in the table, if there are any.
    pub(crate) fn after(&self, first: Option<KeptSymbol>) -> KeptSymbol
        ensures symbol { (strings : List ℕ) → let later = symbol_in strings self.now in
            let before = option_map (symbol_in strings) first in
            symbol_in strings result ≡ option_map_or (λ earlier. spec.first_of_two earlier later) before later }
        ensures either { (result ≡ self.now) ⊎ (first ≡ Some result) }
    {
        let Some(earlier) = first else {
            return *self;
        };
        if self.is_before(&earlier) {
            *self
        } else {
            earlier
        }
    }
}
