//! A field of an instruction word: a number below a power of two, kept by type.
ghost use Rattle.std.specs.Prelude.{◌≡◌, ℕ, ◌^◌, ◌<◌};

use std::marker::Model;

/// A small field of an instruction: a number of `BITS` bits, where `BITS` is at most 8.
#[derive(Clone, Copy, Debug, PartialEq, Eq)]
pub struct Field<const BITS: u32> {
    number: u8,
}

/// How many places a shift by an immediate moves the bits, 0 to 31: the field shamt of the ISA.
pub type ShiftAmount = Field<5>;

/// A field of FENCE, fm, pred or succ, 0 to 15.
pub type FenceField = Field<4>;

impl<const BITS: u32> Model for Field<BITS> {
    ghost Value = { ℕ };

    ghost view = { λ f. f.number };

    ghost invariant = { λ f. f.number < 2 ^ BITS };

    ghost inverse = { λ n. record { number = n } };
}

impl<const BITS: u32> Field<BITS> {
    /// The field that holds this number of `BITS` bits.
    #[inline(always)]
    pub fn new(number: u8) -> Self
        requires { number < 2 ^ BITS }
        ensures { result ≡ number }
    {
        Field { number }
    }

    /// The number that the field holds, of `BITS` bits.
    #[inline(always)]
    pub fn number(&self) -> u8
        ensures value { result ≡ self.now }
        ensures in_range { result < 2 ^ BITS }
    {
        self.number
    }
}
