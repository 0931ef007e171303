//! Reads the symbols of a symbol table.
ghost use Rattle.std.specs.Prelude.{◌≡◌, All, IfOk};
ghost use Rattle.symbols.specs.Kept.{HasName, kept_symbols};
ghost use Rattle.symbols.specs.Symbols.{symbols_in};

use crate::entry::{ENTRY_SIZE, Entry};
use crate::kept_symbol::KeptSymbol;
use std::alloc::{AllocError, Global};

/// What is kept of the symbols of a type.
pub(crate) fn read_symbols(
    alloc: Global,
    strings: &[u8],
    table: &[u8],
    kind: u8,
) -> Result<Vec<KeptSymbol>, AllocError>
    ensures symbols { IfOk result (λ kept. kept_symbols strings.now kept.items ≡ symbols_in strings.now table.now kind) }
    ensures within { IfOk result (λ kept. All (HasName strings.now) kept.items) }
{
    let mut symbols = Vec::new(alloc);
    for row in 0..table.len() / ENTRY_SIZE {
        let entry = Entry::at(table, ENTRY_SIZE * row);
        if let Some(symbol) = KeptSymbol::of(strings, kind, entry) {
            symbols.push(symbol)?;
        }
    }
    Ok(symbols)
}
