//! How threads are resumed.
use crate::thread_id::ThreadId;

/// How far a thread goes that is resumed.
#[derive(Clone, Copy, Debug, PartialEq, Eq)]
pub enum Motion {
    /// Until something stops the run.
    Continue,
    /// One instruction.
    Step,
    /// As long as pc is at `start` or above and below `end`, and one instruction at least.
    Range {
        /// The first address of the range.
        start: u64,
        /// The first address behind it.
        end: u64,
    },
}

/// Which threads an action is for.
#[derive(Clone, Copy, Debug, PartialEq, Eq)]
pub enum Scope {
    /// For all that no earlier action is for.
    Others,
    /// For the threads named.
    Named(ThreadId),
}

/// One action of a packet that resumes.
#[derive(Clone, Copy, Debug, PartialEq, Eq)]
pub struct Action {
    /// How far they go.
    pub motion: Motion,
    /// Which threads it is for.
    pub scope: Scope,
}
