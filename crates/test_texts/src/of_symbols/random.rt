//! Random files, most of them damaged, asked by the symbols and by the plain reader.
use crate::of_symbols::dice::Dice;
use crate::of_symbols::file::{Written, file_of};
use crate::of_symbols::literal::{Found, found_in};
use anyhow::{Result, anyhow};
use std::alloc::{AllocError, Global};
use symbols::{SymbolOffset, Symbols};

/// How many addresses a file is asked for.
const QUESTIONS: u32 = 12;

/// The names of random symbols, some of which are no names.
const NAMES: [&str; 8] = [
    "a",
    "bc",
    "counter",
    "main",
    "x=1",
    "two words",
    "",
    "_Z3fooIiEvT_",
];

/// Looks at so many random files, and prints how many there were, and how many of the addresses asked for are in an object or a function.
pub fn show_random<R: Print>(rt: &R, count: u32, seed: u64) -> Result<()>
where
    R: AllocGlobal,
{
    let mut dice = Dice::new(seed);
    let mut found: u64 = 0;
    for number in 0..count {
        let file = random_file(rt.alloc(), &mut dice)?;
        found = found.saturating_add(look_at(rt.alloc(), &file, &mut dice, number)?);
    }
    println!(rt; "{count} random files: {found} names")?;
    Ok(())
}

/// How many names a file has for random addresses, by its symbols and by the plain reader.
fn look_at(alloc: Global, file: &[u8], dice: &mut Dice, number: u32) -> Result<u64> {
    let symbols = Symbols::read(alloc, file)?;
    let mut found: u64 = 0;
    for _ in 0..QUESTIONS {
        let address = random_address(dice);
        let object = symbols.object_at(address);
        let function = symbols.function_at(address);
        if !is_same(object, found_in(file, 1, u64::from(address)))
            || !is_same(function, found_in(file, 2, u64::from(address)))
        {
            return Err(anyhow!("file {number} differs at {address:08x}"));
        }
        found = found
            .saturating_add(u64::from(object.is_some()))
            .saturating_add(u64::from(function.is_some()));
    }
    Ok(found)
}

/// Whether both readers say the same.
fn is_same(place: Option<SymbolOffset<'_>>, found: Option<Found<'_>>) -> bool {
    match (place, found) {
        (Some(place), Some(found)) => {
            place.name == found.name && u64::from(place.offset) == found.offset
        }
        (None, None) => true,
        _ => false,
    }
}

/// A random file: up to eleven symbols, and up to five changed bytes.
fn random_file(alloc: Global, dice: &mut Dice) -> Result<Vec<u8>, AllocError> {
    let mut symbols = Vec::new(alloc);
    for _ in 0..dice.below(12) {
        symbols.push(random_symbol(dice))?;
    }
    let mut file = file_of(alloc, &symbols)?;
    for _ in 0..dice.below(6) {
        damage(&mut file, dice);
    }
    if dice.below(16) == 0 {
        let size = u32::try_from(file.len()).unwrap_or(0);
        file.truncate(dice.below(size) as usize);
    }
    Ok(file)
}

/// A random symbol.
fn random_symbol(dice: &mut Dice) -> Written {
    Written {
        name: NAMES[dice.below(8) as usize % 8],
        value: random_address(dice),
        size: dice.below(24),
        info: random_info(dice),
        section: u16::from(dice.below(8) != 0),
    }
}

/// A random type and binding: local, global or weak; nothing, an object or a function.
fn random_info(dice: &mut Dice) -> u8 {
    const INFOS: [u8; 8] = [0x01, 0x02, 0x11, 0x12, 0x21, 0x22, 0x10, 0x00];
    INFOS[dice.below(8) as usize % 8]
}

/// One of 32 addresses at one of two places, the second of which ends with the last address.
fn random_address(dice: &mut Dice) -> u32 {
    let start: u32 = if dice.below(3) == 0 {
        0xFFFF_FFE0
    } else {
        0x1_0000
    };
    start.wrapping_add(dice.below(32))
}

/// Changes a byte: of the header, of the section headers, or any one.
fn damage(file: &mut [u8], dice: &mut Dice) {
    let size = u32::try_from(file.len()).unwrap_or(0);
    let place = match dice.below(4) {
        0 => dice.below(52),
        1 => size.saturating_sub(1).saturating_sub(dice.below(120)),
        _ => dice.below(size),
    };
    let byte = match dice.below(3) {
        0 => 0,
        1 => dice.byte_below(8),
        _ => dice.byte_below(255),
    };
    if let Some(target) = file.get_mut(place as usize) {
        *target = byte;
    }
}
