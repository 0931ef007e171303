//! Looks for the symbol that covers an address. Each look-up goes over all symbols once.
ghost use Rattle.std.specs.Prelude.{◌≡◌, ◌≤◌, ℕ, All, Contains, IfSome, List, option_map};
ghost use Rattle.symbols.specs.Covering as spec;
ghost use Rattle.symbols.specs.Kept.{HasName, kept_symbols, symbol_in};

use crate::kept_symbol::KeptSymbol;
use crate::symbol_offset::SymbolOffset;

/// What an address is called by symbols, whose names are in a string table.
#[tactic(auto, unfolding(crate::specs::Covering::place_at))]
pub(crate) fn place_in<'a>(
    strings: &'a [u8],
    symbols: &[KeptSymbol],
    address: u32,
) -> Option<SymbolOffset<'a>>
    requires { All (HasName strings.now) symbols.now }
    ensures { option_map spec.told result ≡ spec.place_at (kept_symbols strings.now symbols.now) address }
{
    let symbol = covering(symbols, address)?;
    let start = symbol.name as usize;
    Some(SymbolOffset {
        name: &strings[start..start + usize::from(symbol.name_size)],
        offset: address - symbol.value,
    })
}

/// The symbol that covers an address.
fn covering(symbols: &[KeptSymbol], address: u32) -> Option<KeptSymbol>
    ensures symbol { (strings : List ℕ) →
        option_map (symbol_in strings) result ≡ spec.covering (kept_symbols strings symbols.now) address }
    ensures among { IfSome result (Contains symbols.now) }
    ensures below { IfSome result (λ symbol. symbol.value ≤ address) }
{
    let mut first: Option<KeptSymbol> = None;
    for symbol in symbols {
        if symbol.covers(address) {
            first = Some(symbol.after(first));
        }
    }
    first
}
