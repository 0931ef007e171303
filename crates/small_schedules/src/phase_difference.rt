//! In what a phase that a number shuffles differs.
use thread_table::ThreadNumbers;

/// In what a phase that a number shuffles differs from the same phase without it. Both lists are the same if the number changed nothing
/// but how long the segments are.
#[derive(Debug, Drop)]
pub struct PhaseDifference {
    /// The phase, from 1.
    pub phase: u64,
    /// Its list by the number: threads in the order of their turns.
    pub drawn: ThreadNumbers,
    /// Its list without a number: all threads that are ready or woken when the phase begins, ascending.
    pub plain: ThreadNumbers,
}
