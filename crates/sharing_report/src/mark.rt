//! A thread's mark at a place, for counting.
/// A mark of a thread at a place.
#[derive(Clone, Copy)]
pub(crate) struct Mark<K> {
    /// The place.
    pub(crate) place: K,
    /// The thread's number.
    pub(crate) thread: u32,
}

/// A byte's address in a phase.
#[derive(Clone, Copy, PartialEq, Eq, PartialOrd, Ord)]
pub(crate) struct PhaseAddress {
    /// The phase.
    pub(crate) phase: u64,
    /// The byte's address.
    pub(crate) address: u32,
}
