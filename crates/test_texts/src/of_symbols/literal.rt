//! A plain reader of symbol tables: for each question it goes over the bytes of the file anew, as the standard tells them.
/// A name, and how far after the symbol's first byte an address is.
#[derive(Clone, Copy)]
pub struct Found<'a> {
    pub name: &'a [u8],
    pub offset: u64,
}

/// Some bytes of a file.
#[derive(Clone, Copy)]
struct Part {
    start: u64,
    size: u64,
}

/// The symbol of a type that covers an address, if there is one.
pub fn found_in(file: &[u8], kind: u64, address: u64) -> Option<Found<'_>> {
    let number = symbol_table(file)?;
    let table = part_of(file, number)?;
    let strings = part_of(file, section_word(file, number, 24)?)?;
    let mut least = u64::MAX;
    let mut found = None;
    for row in 0..table.size / 16 {
        let entry = table.start.saturating_add(row.saturating_mul(16));
        if let Some((rank, other)) = symbol(file, strings, entry, kind, address) {
            if rank < least {
                least = rank;
                found = Some(other);
            }
        }
    }
    found
}

/// The symbol of an entry, if it is of a type and covers an address, with its rank: the less, the better.
fn symbol(
    file: &[u8],
    strings: Part,
    entry: u64,
    kind: u64,
    address: u64,
) -> Option<(u64, Found<'_>)> {
    let value = word(file, entry.saturating_add(4))?;
    let size = word(file, entry.saturating_add(8))?;
    let info = byte(file, entry.saturating_add(12))?;
    let is_defined = half(file, entry.saturating_add(14))? != 0;
    if info % 16 != kind
        || !is_defined
        || address < value
        || address >= value.saturating_add(size)
    {
        return None;
    }
    let name = name(file, strings, word(file, entry)?)?;
    let local = if info / 16 == 1 { 0 } else { 1 };
    let offset = address.saturating_sub(value);
    let found = Found { name, offset };
    Some((size.saturating_mul(2).saturating_add(local), found))
}

/// The name at an offset of the string table.
fn name(file: &[u8], strings: Part, offset: u64) -> Option<&[u8]> {
    let start = strings.start.saturating_add(offset);
    let end = strings.start.saturating_add(strings.size);
    for size in 0..256u64 {
        let at = start.saturating_add(size);
        let next = byte(file, at)?;
        if at >= end || next != 0 && (next < 0x21 || next > 0x7E || next == 0x3D) {
            return None;
        }
        if next == 0 && size == 0 {
            return None;
        }
        if next == 0 {
            return file.get(usize::try_from(start).ok()?..usize::try_from(at).ok()?);
        }
    }
    None
}

/// The number of the first section that is a symbol table.
fn symbol_table(file: &[u8]) -> Option<u64> {
    for number in 0..65_536u64 {
        if section_word(file, number, 4)? == 2 {
            return Some(number);
        }
    }
    None
}

/// The bytes of a section, if it is there and they are inside of the file.
fn part_of(file: &[u8], number: u64) -> Option<Part> {
    let start = section_word(file, number, 16)?;
    let size = section_word(file, number, 20)?;
    if start.saturating_add(size) <= file.len() as u64 {
        Some(Part { start, size })
    } else {
        None
    }
}

/// A word of a section's header, if the file has all section headers.
fn section_word(file: &[u8], number: u64, at: u64) -> Option<u64> {
    let headers = word(file, 32)?;
    let count = half(file, 48)?;
    let size = half(file, 46)?;
    let _whole_header = byte(file, 51)?;
    let end = headers.saturating_add(count.saturating_mul(40));
    if size != 40 || number >= count || end > file.len() as u64 {
        return None;
    }
    word(
        file,
        headers
            .saturating_add(number.saturating_mul(40))
            .saturating_add(at),
    )
}

fn word(file: &[u8], at: u64) -> Option<u64> {
    let low = half(file, at)?;
    let high = half(file, at.saturating_add(2))?;
    Some(high.saturating_mul(65_536).saturating_add(low))
}

fn half(file: &[u8], at: u64) -> Option<u64> {
    let low = byte(file, at)?;
    let high = byte(file, at.saturating_add(1))?;
    Some(high.saturating_mul(256).saturating_add(low))
}

fn byte(file: &[u8], at: u64) -> Option<u64> {
    let byte = file.get(usize::try_from(at).ok()?)?;
    Some(u64::from(*byte))
}
