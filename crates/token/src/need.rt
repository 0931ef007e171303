//! What the next turn needs: a segment with its limits, nothing at a wake, or the end of the run.
use crate::outcome::RunOutcome;
use segment::Segment;

/// A thread's segment, which is to be executed.
#[derive(Clone, Copy, Debug, PartialEq, Eq)]
pub struct Work {
    /// The thread's number.
    pub thread: u32,
    /// What is to be executed, and how far it may go.
    pub segment: Segment,
}

/// What the next turn of a run needs.
#[derive(Clone, Copy, Debug, PartialEq, Eq)]
pub enum Need {
    /// This segment on the memory at the phase's start.
    Segment(Work),
    /// This segment of the thread that keeps the token, on the present memory.
    Keeper(Work),
    /// Nothing: it is the turn of a woken thread.
    Wake {
        /// The thread's number.
        thread: u32,
    },
    /// There is no further turn.
    Ended(RunOutcome),
}
