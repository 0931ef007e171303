//! Numbers and bytes of the files in `data/`. A text that says no number is `WRONG`, which no row wants: what is asked with it isn't
//! answered as wanted.

use std::alloc::{AllocError, Global};

/// What stands in the place of a number that a text doesn't say.
pub const WRONG: u32 = 0x5BAD_5BAD;

/// The number that a decimal text says.
pub fn decimal(text: &str) -> u64 {
    text.parse().unwrap_or(WRONG as u64)
}

/// The number below 2^32 that a decimal text says.
pub fn small(text: &str) -> u32 {
    text.parse().unwrap_or(WRONG)
}

/// The word that some hexadecimal digits say.
pub fn word(text: &str) -> u32 {
    u32::from_str_radix(text, 16).unwrap_or(WRONG)
}

/// The byte that two hexadecimal digits say.
pub fn byte(text: &str) -> u8 {
    u8::from_str_radix(text, 16).unwrap_or(0xAD)
}

/// The bytes that pairs of hexadecimal digits say.
pub fn bytes(alloc: Global, text: &str) -> Result<Vec<u8>, AllocError> {
    let mut found = Vec::new(alloc);
    let mut rest = text;
    for _ in 0..text.len() {
        let Some((digits, others)) = rest.split_at_checked(2) else {
            break;
        };
        found.push(byte(digits))?;
        rest = others;
    }
    Ok(found)
}

/// Appends a line and a newline.
pub fn push_whole(text: &mut String, line: &str) -> Result<(), AllocError> {
    text.push_str(line)?;
    text.push('\n')
}

/// A line's first word, and what comes after the space behind it.
pub fn split(line: &str) -> (&str, &str) {
    line.split_once(' ').unwrap_or((line, ""))
}
