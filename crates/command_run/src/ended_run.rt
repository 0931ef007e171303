//! How a run ended and what it left, of which its last texts are made.
use runtime::RunEnd;

/// How a run ended, and what it left.
#[derive(Drop)]
pub(crate) struct EndedRun {
    /// How it ended, its output, its memory and its threads.
    pub(crate) end: RunEnd,
    /// The text of its findings, if that is wanted.
    pub(crate) findings: String,
}
