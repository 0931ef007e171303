//! A run that has ended, with its findings.
use races::Finding;
use runtime::{Interruption, RecordedRun};

/// What an observed run came to.
#[derive(Drop)]
pub struct ObservedRun<K> {
    /// How it ended, or why it didn't, and its recorder.
    pub run: RecordedRun<K, Interruption>,
    /// What was found, in the order in which the last event of each came. None if it didn't end.
    pub findings: Vec<Finding>,
}
