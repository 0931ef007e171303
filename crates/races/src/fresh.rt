//! Bytes that begin a new life.
ghost use Rattle.std.specs.Prelude.{◌≡◌, ℕ, ◌+◌, ◌/◌, ◌<◌, ◌↔◌, true};
ghost use Rattle.races.specs.Bytes.{has};
ghost use Rattle.races.specs.Races.{Renews};
ghost use Rattle.races.specs.Steps.Step.{Renew};

use crate::byte_set::ByteSet;

/// The bytes from an address on, so many.
#[derive(Clone, Copy)]
pub(crate) struct Fresh {
    /// The address of the first of them.
    pub(crate) address: u32,
    /// How many they are.
    pub(crate) length: u32,
}

impl Fresh {
    /// The word of the first of them.
    pub(crate) fn first_word(self) -> u32
        ensures { result ≡ self.address / 4 }
    {
        self.address / 4
    }

    /// The first word after them.
    pub(crate) fn end_word(self) -> u32
        ensures { result ≡ (self.address + self.length + 3) / 4 }
    {
        ((u64::from(self.address) + u64::from(self.length) + 3) / 4) as u32
    }

    /// Which bytes of a word are among them.
    pub(crate) fn bytes_of(self, word: u32) -> ByteSet
        ensures { (place : ℕ) → place < 4 → (has result place ≡ true) ↔ Renews (Renew self.address self.length) word place }
    {
        ByteSet {
            first: self.has(word, 0),
            second: self.has(word, 1),
            third: self.has(word, 2),
            fourth: self.has(word, 3),
        }
    }

    /// Whether the byte at a place of a word is among them.
    fn has(self, word: u32, place: u8) -> bool
        ensures { (result ≡ true) ↔ Renews (Renew self.address self.length) word place }
    {
        let byte = u64::from(word) * 4 + u64::from(place);
        u64::from(self.address) <= byte && byte < u64::from(self.address) + u64::from(self.length)
    }
}
