//! A turn as it was recorded. Plain data.
use token::Turn;

/// A turn, and how many pages it changed.
#[derive(Clone, Copy, Debug, PartialEq, Eq)]
pub struct RecordedTurn {
    /// The record of the turn.
    pub turn: Turn,
    /// How many pages have a byte that it changed.
    pub pages: u64,
}
