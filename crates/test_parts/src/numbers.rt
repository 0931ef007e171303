//! The numbers of lines, in hexadecimal.

use std::alloc::{AllocError, Global};
use test_guest_rows::{split, word};

/// The numbers that the first six words say, and 0 for those that lack.
pub fn numbers_of(text: &str) -> [u32; 6] {
    let mut numbers = [0; 6];
    for (there, digits) in numbers.iter_mut().zip(text.split_whitespace()) {
        *there = word(digits);
    }
    numbers
}

/// Appends the numbers that all words say.
pub fn push_words(numbers: &mut Vec<u32>, text: &str) -> Result<(), AllocError> {
    for digits in text.split_whitespace() {
        numbers.push(word(digits))?;
    }
    Ok(())
}

/// The numbers that all words say.
pub fn list_of(alloc: Global, text: &str) -> Result<Vec<u32>, AllocError> {
    let mut numbers = Vec::new(alloc);
    push_words(&mut numbers, text)?;
    Ok(numbers)
}
