//! Prints what the addresses of a file are called.
use crate::of_symbols::named::names_of;
use anyhow::Result;
use std::fs;
use std::rt::Files;
use symbols::Symbols;

/// Prints a line for each of so many addresses from the first one on: the address, its object and its function.
pub fn show_names<R: Print + Files>(rt: &R, file: &str, first: u32, count: u32) -> Result<()>
where
    R: AllocGlobal,
{
    let symbols = Symbols::read(rt.alloc(), &fs::read(rt, file)?)?;
    show_all(rt, &symbols, first, count)
}

/// Prints the lines of so many addresses.
fn show_all<R: Print>(rt: &R, symbols: &Symbols, first: u32, count: u32) -> Result<()>
where
    R: AllocGlobal,
{
    for step in 0..count {
        let address = first.wrapping_add(step);
        let line = names_of(rt.alloc(), symbols, address, [" object=", " in=", ""])?;
        rt.println(line.as_str())?;
    }
    Ok(())
}
