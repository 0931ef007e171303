//! A guest program: its listing and its pages.
use crate::elf_file::{DATA, file_with_zeros};
use std::alloc::{AllocError, Global};

/// The segment of zeros that a program has beside its code: its address and its size.
pub const PAGE: [(u32, u32); 1] = [(DATA, 4096)];

/// A guest program.
#[derive(Clone, Copy, Debug)]
pub struct Program {
    /// Its name, and that of its files in the data of `test_guest_runs`.
    pub name: &'static str,
    /// Its listing as `dthreads disasm` prints it, in parts: a line for each word, with its address, the word and the
    /// instruction.
    pub listing: &'static [&'static str],
    /// The segments of zeros after the code, each with its address and its size.
    pub zeros: &'static [(u32, u32)],
}

impl Program {
    /// The words of its code.
    pub fn words(&self, alloc: Global) -> Result<Vec<u32>, AllocError> {
        let mut words = Vec::new(alloc);
        for part in self.listing {
            push_words(&mut words, part)?;
        }
        Ok(words)
    }

    /// The bytes of its file.
    pub fn file(&self, alloc: Global) -> Result<Vec<u8>, AllocError> {
        file_with_zeros(alloc, &self.words(alloc)?, self.zeros)
    }

    /// Its whole listing.
    pub fn listing_text(&self, alloc: Global) -> Result<String, AllocError> {
        let mut text = String::new(alloc);
        for part in self.listing {
            text.push_str(part)?;
        }
        Ok(text)
    }
}

/// The words of a listing.
pub fn words_of(alloc: Global, listing: &str) -> Result<Vec<u32>, AllocError> {
    let mut words = Vec::new(alloc);
    push_words(&mut words, listing)?;
    Ok(words)
}

/// Appends the words of some lines of a listing.
fn push_words(words: &mut Vec<u32>, listing: &str) -> Result<(), AllocError> {
    for line in listing.lines() {
        words.push(word_of(line))?;
    }
    Ok(())
}

/// The word of a line of a listing: its second part, in hexadecimal.
fn word_of(line: &str) -> u32 {
    let digits = line.split_whitespace().nth(1).unwrap_or("");
    u32::from_str_radix(digits, 16).unwrap_or(0)
}
