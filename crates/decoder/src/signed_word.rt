//! An immediate, sign-extended to a word, whose range and step are kept by type.
ghost use Rattle.std.specs.Prelude.{◌≡◌, ℕ, ◌%◌};
ghost use Rattle.decoder.specs.Word.{IsSignExtended};

use std::marker::Model;

/// The immediate of an instruction, as the word of 32 bits that it stands for: a signed number of `BITS` bits
/// (1 to 32) that is a multiple of `STEP`, with copies of its sign bit above. A number that is not
/// negative is below 2^(`BITS` - 1) and is the word itself; a negative one is at least -2^(`BITS` - 1), and the
/// word is 2^32 more.
#[derive(Clone, Copy, Debug, PartialEq, Eq)]
pub struct SignedWord<const BITS: u32, const STEP: u32> {
    word: u32,
}

/// The immediate of the I and S forms, -2048 to 2047.
pub type Immediate = SignedWord<12, 1>;

/// The immediate of the B form, the even numbers from -4096 to 4094.
pub type BranchOffset = SignedWord<13, 2>;

/// The immediate of the J form, the even numbers from -1048576 to 1048574.
pub type JumpOffset = SignedWord<21, 2>;

/// The immediate of the U form: a word whose lower 12 bits are 0.
pub type UpperImmediate = SignedWord<32, 4096>;

impl<const BITS: u32, const STEP: u32> Model for SignedWord<BITS, STEP> {
    ghost Value = { ℕ };

    ghost view = { λ s. s.word };

    ghost invariant = { λ s. IsSignExtended BITS s.word × (s.word % STEP ≡ 0) };

    ghost inverse = { λ n. record { word = n } };
}

impl<const BITS: u32, const STEP: u32> SignedWord<BITS, STEP> {
    /// The immediate that stands for this word.
    #[inline(always)]
    pub fn new(word: u32) -> Self
        requires extended { IsSignExtended BITS word }
        requires multiple { word % STEP ≡ 0 }
        ensures { result ≡ word }
    {
        SignedWord { word }
    }

    /// The word that the immediate stands for.
    #[inline(always)]
    pub fn word(&self) -> u32
        ensures value { result ≡ self.now }
        ensures extended { IsSignExtended BITS result }
        ensures multiple { result % STEP ≡ 0 }
    {
        self.word
    }
}
