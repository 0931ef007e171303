//! The end of a run: outcome, output, memory and threads.
use paged_memory::Snapshot;
use thread_table::Thread;
use token::RunOutcome;

/// How a run ended, and what it left.
#[derive(Drop)]
pub struct RunEnd {
    /// How it ended.
    pub outcome: RunOutcome,
    /// All that the program wrote.
    pub output: Vec<u8>,
    /// The shared memory at the end.
    pub memory: Snapshot,
    /// All threads that were made, by their numbers: at most 256.
    pub threads: Vec<Thread>,
}
