//! Files with a symbol table, written field by field (System V ABI, ELF-32).
use std::alloc::{AllocError, Global};

/// The fields of a symbol (System V ABI, Symbol Table), with its name in place of the name's offset.
#[derive(Clone, Copy)]
pub struct Written {
    /// Its name.
    pub name: &'static str,
    /// Its first address.
    pub value: u32,
    /// How many bytes it has.
    pub size: u32,
    /// Its binding, times 16, and its type.
    pub info: u8,
    /// The section that it is in.
    pub section: u16,
}

/// The bytes of a file's header, where the string table begins.
const HEADER_SIZE: u32 = 52;

/// A file with these symbols: the header, the string table, the symbol table, and the headers of three sections, which are no section, the
/// symbol table and the string table.
pub fn file_of(alloc: Global, symbols: &[Written]) -> Result<Vec<u8>, AllocError> {
    let mut strings = vec![in alloc; 0]?;
    let mut table = Vec::new(alloc);
    for symbol in symbols {
        put_symbol(&mut table, symbol, size_of(&strings))?;
        strings.extend_from_slice(symbol.name.as_bytes())?;
        strings.push(0)?;
    }
    let table_start = HEADER_SIZE.saturating_add(size_of(&strings));
    let headers_start = table_start.saturating_add(size_of(&table));
    let mut file = header(alloc, headers_start)?;
    file.extend_from_slice(&strings)?;
    file.extend_from_slice(&table)?;
    put_section(&mut file, 0, 0, 0, 0)?;
    put_section(&mut file, 2, table_start, size_of(&table), 2)?;
    put_section(&mut file, 3, HEADER_SIZE, size_of(&strings), 0)?;
    Ok(file)
}

/// How many bytes there are.
fn size_of(bytes: &[u8]) -> u32 {
    u32::try_from(bytes.len()).unwrap_or(u32::MAX)
}

/// The header of a file with three section headers from an offset on (System V ABI, ELF Header).
fn header(alloc: Global, headers_start: u32) -> Result<Vec<u8>, AllocError> {
    let mut file = Vec::from_slice(alloc, b"\x7fELF\x01\x01\x01\0\0\0\0\0\0\0\0\0")?;
    put_halves(&mut file, &[2, 243])?;
    put_words(&mut file, &[1, 0x1_0000, 0, headers_start, 0])?;
    put_halves(&mut file, &[52, 32, 0, 40, 3, 0])?;
    Ok(file)
}

/// Appends the entry of a symbol whose name is at an offset.
fn put_symbol(table: &mut Vec<u8>, symbol: &Written, name: u32) -> Result<(), AllocError> {
    put_words(table, &[name, symbol.value, symbol.size])?;
    table.extend_from_slice(&[symbol.info, 0])?;
    put_halves(table, &[symbol.section])
}

/// Appends a section header of a type, with an offset, a size and a link.
fn put_section(
    file: &mut Vec<u8>,
    kind: u32,
    start: u32,
    size: u32,
    link: u32,
) -> Result<(), AllocError> {
    put_words(file, &[0, kind, 0, 0, start, size, link, 0, 1, 0])
}

fn put_words(file: &mut Vec<u8>, words: &[u32]) -> Result<(), AllocError> {
    for word in words {
        file.extend_from_slice(&word.to_le_bytes())?;
    }
    Ok(())
}

fn put_halves(file: &mut Vec<u8>, halves: &[u16]) -> Result<(), AllocError> {
    for half in halves {
        file.extend_from_slice(&half.to_le_bytes())?;
    }
    Ok(())
}
