//! Numbers among bytes, the lowest byte first. These are plainly `inline`, so that each is simplified to
//! one load or store of its width before its caller looks at single bytes.
#![tactic(auto, unfolding(crate::specs::Bytes::with_low_bytes))]

ghost use Rattle.std.specs.Prelude.{◌≡◌, ◌+◌, ◌≤◌, length};
ghost use Rattle.paged_memory.specs.Bytes.{number_from, with_low_bytes};

/// The number of two bytes from an index on.
#[inline]
pub(crate) fn read16(bytes: &[u8], index: usize) -> u16
    requires { index + 2 ≤ length bytes.now }
    ensures { result ≡ number_from bytes.now 2 index }
{
    u16::from_le_bytes([bytes[index], bytes[index + 1]])
}

/// The number of four bytes from an index on.
#[inline]
pub(crate) fn read32(bytes: &[u8], index: usize) -> u32
    requires { index + 4 ≤ length bytes.now }
    ensures { result ≡ number_from bytes.now 4 index }
{
    u32::from_le_bytes([
        bytes[index],
        bytes[index + 1],
        bytes[index + 2],
        bytes[index + 3],
    ])
}

/// Writes a number of one byte at an index.
#[inline]
pub(crate) fn write8(bytes: &mut [u8], index: usize, value: u8)
    requires { index + 1 ≤ length bytes.old }
    ensures { bytes.new ≡ with_low_bytes 1 bytes.old index value }
{
    bytes[index] = value;
}

/// Writes a number of two bytes from an index on.
#[inline]
pub(crate) fn write16(bytes: &mut [u8], index: usize, value: u16)
    requires { index + 2 ≤ length bytes.old }
    ensures { bytes.new ≡ with_low_bytes 2 bytes.old index value }
{
    let [b0, b1] = value.to_le_bytes();
    bytes[index] = b0;
    bytes[index + 1] = b1;
}

/// Writes a number of four bytes from an index on.
#[inline]
pub(crate) fn write32(bytes: &mut [u8], index: usize, value: u32)
    requires { index + 4 ≤ length bytes.old }
    ensures { bytes.new ≡ with_low_bytes 4 bytes.old index value }
{
    let [b0, b1, b2, b3] = value.to_le_bytes();
    bytes[index] = b0;
    bytes[index + 1] = b1;
    bytes[index + 2] = b2;
    bytes[index + 3] = b3;
}
