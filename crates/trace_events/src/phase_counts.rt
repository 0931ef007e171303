//! What is counted of a phase. Plain data.

/// What is counted of the phase that goes on.
#[derive(Clone, Copy, Debug, PartialEq, Eq)]
pub struct PhaseCounts {
    /// When it began.
    pub start: u64,
    /// How many threads had a turn in it.
    pub ready: u64,
    /// How many pages its turns changed, each turn's counted by itself.
    pub pages: u64,
}
