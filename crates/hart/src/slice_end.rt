//! How a slice of a segment ends: at a stop, or with instructions left.
use crate::stop::Stop;

/// Where a slice of a segment ends.
#[derive(Clone, Copy, Debug, PartialEq, Eq)]
pub enum SliceEnd {
    /// The segment goes on. It has executed so many instructions.
    Unfinished(u64),
    /// The segment stops, with its count of instructions, an ecall included.
    Stopped(Stop, u64),
}
