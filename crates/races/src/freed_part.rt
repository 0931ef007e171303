//! Dead bytes that follow each other.
use crate::freed_block::FreedBlock;

/// Dead bytes that follow each other and died with one block. The address of the first is the key under which they are kept.
#[derive(Clone, Copy)]
pub(crate) struct FreedPart {
    /// The address after the last of them.
    pub(crate) end: u64,
    /// The block that they died with.
    pub(crate) block: FreedBlock,
}
