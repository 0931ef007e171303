//! What an address is called, as a text.
use std::alloc::{AllocError, Global};
use symbols::{SymbolOffset, Symbols};

/// An address, and what it is called as an object and as a function, with these texts before, between and after the names.
pub fn names_of(
    alloc: Global,
    symbols: &Symbols,
    address: u32,
    [before, between, after]: [&str; 3],
) -> Result<String, AllocError> {
    let object = text_of(alloc, symbols.object_at(address))?;
    let function = text_of(alloc, symbols.function_at(address))?;
    format!(in alloc; "{address:08x}{before}{object}{between}{function}{after}")
}

/// A name and an offset, as `counter+4`, or nothing.
fn text_of(alloc: Global, place: Option<SymbolOffset<'_>>) -> Result<String, AllocError> {
    match place {
        Some(place) => match str::from_utf8(place.name) {
            Ok(name) => format!(in alloc; "{name}+{}", place.offset),
            Err(_) => String::from_str(alloc, "no text"),
        },
        None => Ok(String::new(alloc)),
    }
}
