//! Words and numbers of lines. Touches no file.

/// The first word of a text, and what comes after the space behind it.
pub fn split(text: &str) -> (&str, &str) {
    text.split_once(' ').unwrap_or((text, ""))
}

/// The number that a decimal text says, or 0.
pub fn number(text: &str) -> u32 {
    text.parse().unwrap_or(0)
}

/// The number that an octal text says, or 0.
pub fn octal(text: &str) -> u32 {
    u32::from_str_radix(text, 8).unwrap_or(0)
}
