//! The number of a register, 0 to 31, kept by type.
ghost use Rattle.std.specs.Prelude.{◌≡◌, ℕ, ◌<◌};

use std::marker::Model;

/// One of the registers x0 to x31, by its number.
#[derive(Clone, Copy, Debug, PartialEq, Eq)]
pub struct Register {
    number: u8,
}

impl Model for Register {
    ghost Value = { ℕ };

    ghost view = { λ r. r.number };

    ghost invariant = { λ r. r.number < 32 };

    ghost inverse = { λ n. record { number = n } };
}

impl Register {
    /// The register of this number, 0 to 31.
    #[inline(always)]
    pub fn new(number: u8) -> Self
        requires { number < 32 }
        ensures { result ≡ number }
    {
        Register { number }
    }

    /// The number, 0 to 31.
    #[inline(always)]
    pub fn number(&self) -> u8
        ensures value { result ≡ self.now }
        ensures in_range { result < 32 }
    {
        self.number
    }
}
