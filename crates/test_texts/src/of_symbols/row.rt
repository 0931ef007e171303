//! A row: a file, and what its addresses are called.
use crate::of_symbols::change::{Change, make_change};
use crate::of_symbols::file::{Written, file_of};
use crate::of_symbols::named::names_of;
use anyhow::Result;
use std::alloc::{AllocError, Global};
use symbols::{SymbolOffset, Symbols};

/// What an address is called.
#[derive(Clone, Copy)]
pub struct Wanted {
    /// The address.
    pub address: u32,
    /// Its object with an offset, as `counter+4`, or nothing.
    pub object: &'static str,
    /// Its function likewise.
    pub function: &'static str,
}

/// A row: symbols, what is changed in their file, and what addresses are called.
#[derive(Clone, Copy)]
pub struct Row {
    /// What the row shows.
    pub name: &'static str,
    pub symbols: &'static [Written],
    pub change: Option<Change>,
    pub wanted: &'static [Wanted],
}

/// Prints a line for each row.
pub fn show_rows<R: Print>(rt: &R, rows: &[Row]) -> Result<()>
where
    R: AllocGlobal,
{
    for row in rows {
        show_row(rt, row)?;
    }
    Ok(())
}

/// Prints a row's line: `NAME: ok`, or what an address is called in place of what is wanted.
fn show_row<R: Print>(rt: &R, row: &Row) -> Result<()>
where
    R: AllocGlobal,
{
    let said = said_of(rt.alloc(), row)?;
    Ok(println!(rt; "{}: {said}", row.name)?)
}

/// What is said of a row: `ok`, or what the first address is called that has other names than the wanted ones.
fn said_of(alloc: Global, row: &Row) -> Result<String, AllocError> {
    let file = changed_file(alloc, row)?;
    let symbols = Symbols::read(alloc, &file)?;
    match first_other(&symbols, row.wanted) {
        Some(address) => names_of(alloc, &symbols, address, [" is '", "' in '", "'"]),
        None => String::from_str(alloc, "ok"),
    }
}

/// The file of a row.
fn changed_file(alloc: Global, row: &Row) -> Result<Vec<u8>, AllocError> {
    let mut file = file_of(alloc, row.symbols)?;
    if let Some(change) = row.change {
        make_change(&mut file, change);
    }
    Ok(file)
}

/// The first address that has other names than the wanted ones.
fn first_other(symbols: &Symbols, wanted: &[Wanted]) -> Option<u32> {
    for wanted in wanted {
        if !is_called(symbols.object_at(wanted.address), wanted.object)
            || !is_called(symbols.function_at(wanted.address), wanted.function)
        {
            return Some(wanted.address);
        }
    }
    None
}

/// Whether a place is called so.
fn is_called(place: Option<SymbolOffset<'_>>, wanted: &str) -> bool {
    match (place, wanted.split_once('+')) {
        (Some(place), Some((name, offset))) => {
            place.name == name.as_bytes() && offset.parse() == Ok(place.offset)
        }
        (None, None) => wanted.is_empty(),
        _ => false,
    }
}
