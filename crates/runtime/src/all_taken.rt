//! The sink of a run without one: takes every byte and never fails.
use crate::sink::{Sink, SinkFault};

/// The sink that takes all, tells nothing and never fails.
#[derive(Clone, Copy, Debug, PartialEq, Eq)]
pub struct AllTaken;

impl Sink for AllTaken {
    ghost failed = { λ _. 0 };

    fn put(&mut self, bytes: &[u8]) -> Result<usize, SinkFault> {
        Ok(bytes.len())
    }

    fn failures(&self) -> u64 {
        0
    }
}
