//! The one writer of guest files.

use std::alloc::{AllocError, Global};

/// Where the code of each program begins, and its entry.
pub const CODE: u32 = 0x0001_0000;

/// Where each program has a page of zeros that can be read and written.
pub const DATA: u32 = 0x0002_0000;

/// A program header: type, offset in the file, address, size in the file, size in memory, and flags. Its physical address and
/// its alignment are 0.
pub type ProgramHeader = [u32; 6];

/// The bytes of a file whose code are these words, with a page of zeros at `DATA`.
pub fn file_of(alloc: Global, words: &[u32]) -> Result<Vec<u8>, AllocError> {
    file_with_zeros(alloc, words, &[(DATA, 4096)])
}

/// The bytes of a file whose code are these words, with further segments of zeros that can be read and written, each given by
/// its address and its size.
pub fn file_with_zeros(
    alloc: Global,
    words: &[u32],
    zeros: &[(u32, u32)],
) -> Result<Vec<u8>, AllocError> {
    let headers = 1 + zeros.len().min(63) as u32;
    let offset = 52 + 32 * headers;
    let size = 4 * words.len().min(0x0100_0000) as u32;
    let mut headers = Vec::new(alloc);
    headers.push([1, offset, CODE, size, size, 5])?;
    for (address, size) in zeros {
        headers.push([1, offset, *address, 0, *size, 6])?;
    }
    file_of_headers(alloc, &headers, words)
}

/// The bytes of a file with these program headers right after the header, and then these words.
pub fn file_of_headers(
    alloc: Global,
    headers: &[ProgramHeader],
    words: &[u32],
) -> Result<Vec<u8>, AllocError> {
    let count = headers.len().min(0xFFFF) as u32;
    let mut file = Vec::new(alloc);
    push_words(
        &mut file,
        &[0x464C_457F, 0x0001_0101, 0, 0, 0x00F3_0002, 1, CODE],
    )?;
    push_words(&mut file, &[52, 0, 0, 0x0020_0034, count, 0])?;
    for [kind, offset, address, in_file, in_memory, flags] in headers {
        let header = [*kind, *offset, *address, 0, *in_file, *in_memory, *flags, 0];
        push_words(&mut file, &header)?;
    }
    push_words(&mut file, words)?;
    Ok(file)
}

/// Appends words, the lowest byte of each first.
fn push_words(file: &mut Vec<u8>, words: &[u32]) -> Result<(), AllocError> {
    for word in words {
        file.extend_from_slice(&word.to_le_bytes())?;
    }
    Ok(())
}
