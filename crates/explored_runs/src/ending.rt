//! How a run ended and what it wrote, by which rows are told apart.
use token::RunOutcome;

/// How a run ended, and the SHA-256 of what it wrote.
#[derive(Clone, Copy, Debug, PartialEq, Eq)]
pub struct Ending {
    /// How it ended.
    pub outcome: RunOutcome,
    /// The SHA-256 of its output.
    pub digest: [u8; 32],
}
