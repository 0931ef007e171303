//! What a run answers: outcome, output, memory, trace and sharing.
use paged_memory::Snapshot;
use sharing_report::PageRow;
use token::{RunOutcome, Turn};

/// What a run came to.
#[derive(Drop)]
pub struct Report {
    /// How it ended.
    pub outcome: RunOutcome,
    /// All that the program wrote.
    pub output: Vec<u8>,
    /// The shared memory at the end.
    pub memory: Snapshot,
    /// The turns, the first one first.
    pub trace: Vec<Turn>,
    /// How each page with a changed byte was shared.
    pub sharing: Vec<PageRow>,
}
