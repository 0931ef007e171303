//! What a case answers, as a line and as a digest.
use std::fmt;

/// What a case came to.
#[derive(Clone, Copy)]
pub struct Answer {
    /// How many it were: pages, bytes or turns.
    pub count: u64,
    /// A number that was read, or the status of a run.
    pub value: u32,
    /// The digest of what stands after the call.
    pub digest: u64,
}

impl fmt::Display for Answer {
    fn fmt<W: fmt::Write>(&self, f: &mut fmt::Formatter<W>) -> fmt::Result {
        write!(f, "{} {} {:016x}", self.count, self.value, self.digest)
    }
}

/// A digest of bytes (FNV-1a, 64 bits).
pub fn digest_of(bytes: &[u8]) -> u64 {
    let mut digest: u64 = 0xcbf2_9ce4_8422_2325;
    for byte in bytes {
        digest = mixed(digest, u64::from(*byte));
    }
    digest
}

/// A digest with a further number.
pub fn mixed(digest: u64, number: u64) -> u64 {
    (digest ^ number).wrapping_mul(0x0100_0000_01b3)
}

/// The first of some numbers, or 0.
pub fn first_of(numbers: &[u32]) -> u32 {
    match numbers.first() {
        Some(first) => *first,
        None => 0,
    }
}
