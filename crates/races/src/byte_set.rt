//! Which of a word's four bytes.
ghost use Rattle.std.specs.Prelude.{◌≡◌, ℕ, ◌&&◌, ◌||◌, IsTrue, not, true};
ghost use Rattle.races.specs.Bytes.{has, is_none};
ghost use Rattle.races.specs.Ranges as ranges;

/// Some of a word's four bytes, which stand at the places 0 to 3.
#[derive(Clone, Copy, Debug, PartialEq, Eq)]
pub struct ByteSet {
    /// Whether the byte at place 0 is among them.
    pub first: bool,
    /// Whether the byte at place 1 is.
    pub second: bool,
    /// Whether the byte at place 2 is.
    pub third: bool,
    /// Whether the byte at place 3 is.
    pub fourth: bool,
}

impl ByteSet {
    ghost use Rattle.races.specs.Texts.{lowest};

    /// Which bytes of a word are among those from an address on, so many.
    pub fn of_range(word: u32, address: u32, length: u32) -> Self
        ensures { result ≡ ranges.bytes_in word address length }
    {
        ByteSet {
            first: is_among(word, 0, address, length),
            second: is_among(word, 1, address, length),
            third: is_among(word, 2, address, length),
            fourth: is_among(word, 3, address, length),
        }
    }

    /// Whether there is no byte.
    pub fn is_empty(self) -> bool
        ensures { result ≡ is_none self }
    {
        !(self.first || self.second || self.third || self.fourth)
    }

    /// Whether both have the same bytes. No byte is tested by itself, so this is one comparison of four bytes of memory.
    #[inline(always)]
    pub(crate) fn is_same(self, other: ByteSet) -> bool
        ensures { IsTrue result → self ≡ other }
    {
        (self.first == other.first)
            & (self.second == other.second)
            & (self.third == other.third)
            & (self.fourth == other.fourth)
    }

    /// The lowest place of a byte, or 3 if there is none.
    pub(crate) fn lowest(self) -> u8
        ensures { result ≡ lowest self }
    {
        if self.first {
            0
        } else if self.second {
            1
        } else if self.third {
            2
        } else {
            3
        }
    }

    /// Whether each byte is in the other set.
    pub(crate) fn is_within(self, other: ByteSet) -> bool
        ensures { IsTrue result → (place : ℕ) → has self place ≡ true → has other place ≡ true }
    {
        (!self.first || other.first)
            && (!self.second || other.second)
            && (!self.third || other.third)
            && (!self.fourth || other.fourth)
    }

    /// A small number, another one for each byte alone.
    #[inline(always)]
    pub(crate) fn mixed(self) -> u32 {
        u32::from(self.second) + 2 * u32::from(self.third) + 3 * u32::from(self.fourth)
    }

    /// The bytes that are in both.
    pub(crate) fn common(self, other: ByteSet) -> ByteSet
        ensures { (place : ℕ) → has result place ≡ (has self place && has other place) }
    {
        ByteSet {
            first: self.first && other.first,
            second: self.second && other.second,
            third: self.third && other.third,
            fourth: self.fourth && other.fourth,
        }
    }

    /// The bytes that are in one of them.
    pub(crate) fn joined(self, other: ByteSet) -> ByteSet
        ensures { (place : ℕ) → has result place ≡ (has self place || has other place) }
    {
        ByteSet {
            first: self.first || other.first,
            second: self.second || other.second,
            third: self.third || other.third,
            fourth: self.fourth || other.fourth,
        }
    }

    /// The bytes that are not in the other.
    pub(crate) fn without(self, other: ByteSet) -> ByteSet
        ensures { (place : ℕ) → has result place ≡ (has self place && not (has other place)) }
    {
        ByteSet {
            first: self.first && !other.first,
            second: self.second && !other.second,
            third: self.third && !other.third,
            fourth: self.fourth && !other.fourth,
        }
    }
}

/// Whether the byte at a place of a word is among those from an address on, so many.
fn is_among(word: u32, place: u8, address: u32, length: u32) -> bool
    ensures { result ≡ ranges.is_among word place address length }
{
    let byte = u64::from(word) * 4 + u64::from(place);
    u64::from(address) <= byte && byte < u64::from(address) + u64::from(length)
}
