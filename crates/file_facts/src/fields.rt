//! Fields of a file, read at an offset.
ghost use Rattle.std.specs.Prelude.{◌≡◌, ◌+◌, ◌≤◌, length};
ghost use Rattle.file_facts.specs.Fields.{big_half_at, half_at, word_at};

use byteorder::{BigEndian, ByteOrder, LittleEndian};

/// The number in the 2 bytes from an offset on, the lowest first.
#[tactic(auto, unfolding(crate::specs::Fields::half_at))]
pub(crate) fn half(file: &[u8], offset: usize) -> u16
    requires { offset + 2 ≤ length file.now }
    ensures { result ≡ half_at file.now offset }
{
    LittleEndian::read_u16(&file[offset..])
}

/// The number in the 2 bytes from an offset on, the highest first.
#[tactic(auto, unfolding(crate::specs::Fields::big_half_at))]
pub(crate) fn big_half(file: &[u8], offset: usize) -> u16
    requires { offset + 2 ≤ length file.now }
    ensures { result ≡ big_half_at file.now offset }
{
    BigEndian::read_u16(&file[offset..])
}

/// The number in the 4 bytes from an offset on, the lowest first.
#[tactic(auto, unfolding(crate::specs::Fields::word_at))]
pub(crate) fn word(file: &[u8], offset: usize) -> u32
    requires { offset + 4 ≤ length file.now }
    ensures { result ≡ word_at file.now offset }
{
    LittleEndian::read_u32(&file[offset..])
}
