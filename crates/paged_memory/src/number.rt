//! A number of 1, 2 or 4 bytes, as it is stored.
ghost use Rattle.std.specs.Prelude.{◌≡◌};

/// A number of 1, 2 or 4 bytes, as it is stored.
#[derive(Clone, Copy, Debug, PartialEq, Eq)]
pub enum Number {
    /// One byte.
    Byte(u8),
    /// Two bytes.
    Half(u16),
    /// Four bytes.
    Word(u32),
}

impl Number {
    ghost use Rattle.paged_memory.specs.Number.{width_of};

    /// How many bytes it has.
    #[inline(always)]
    pub fn width(self) -> u32
        ensures { result ≡ width_of self }
    {
        match self {
            Number::Byte(_) => 1,
            Number::Half(_) => 2,
            Number::Word(_) => 4,
        }
    }
}
