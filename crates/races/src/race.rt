//! A race: two accesses, and the bytes of a word at which they race.
ghost use Rattle.std.specs.Prelude.{◌≡◌};
ghost use Rattle.races.specs.Texts.{address_of, size_of};

use crate::byte_set::ByteSet;
use crate::site::Site;

/// Two accesses that race, and the bytes of a word at which their instructions race in the run.
#[derive(Clone, Copy, Debug, PartialEq, Eq)]
pub struct Race {
    /// The word's number: the address of its first byte, divided by four.
    pub word: u32,
    /// Which of the word's bytes.
    pub bytes: ByteSet,
    /// The earlier access.
    pub first: Site,
    /// The later access.
    pub second: Site,
}

impl Race {
    /// The address of the lowest of its bytes.
    pub fn address(&self) -> u32
        ensures { result ≡ address_of self.now }
    {
        ((u64::from(self.word) * 4 + u64::from(self.bytes.lowest())) % (1 << 32)) as u32
    }

    /// How many bytes it has.
    pub fn size(&self) -> u8
        ensures { result ≡ size_of self.now.bytes }
    {
        let bytes = self.bytes;
        u8::from(bytes.first)
            + u8::from(bytes.second)
            + u8::from(bytes.third)
            + u8::from(bytes.fourth)
    }
}
