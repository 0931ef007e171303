//! A sink that keeps the first 16 bytes and takes no memory.
use runtime::{Sink, SinkFault};

/// How many bytes are kept.
const ROOM: usize = 16;

/// A sink that takes a byte at a time, keeps the first 16, and never fails. It takes no memory.
#[derive(Clone, Copy)]
pub struct Taker {
    bytes: [u8; ROOM],
    count: usize,
}

impl Taker {
    /// The sink that has taken nothing.
    pub fn new() -> Self {
        Taker {
            bytes: [0; ROOM],
            count: 0,
        }
    }

    /// The bytes that it kept.
    pub fn kept(&self) -> &[u8] {
        match self.bytes.get(..self.count) {
            Some(kept) => kept,
            None => &self.bytes,
        }
    }
}

impl Sink for Taker {
    ghost failed = { λ _. 0 };

    fn put(&mut self, bytes: &[u8]) -> Result<usize, SinkFault> {
        let Some(byte) = bytes.first() else {
            return Ok(0);
        };
        if let Some(place) = self.bytes.get_mut(self.count) {
            *place = *byte;
            self.count = self.count.saturating_add(1);
        }
        Ok(1)
    }

    fn failures(&self) -> u64 {
        0
    }
}
