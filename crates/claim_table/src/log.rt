//! What some seats have done, as the ghost view of the shared words keeps it.
use std::collections::LinkedList;

/// What some seats have done, of which proofs alone speak: no value of it is made.
pub struct Log {
    /// How many seats did it: one, or none after a seat's log went over to another's.
    pub seats: u64,
    /// The numbers drawn, in their order.
    pub drawn: LinkedList<u32>,
    /// The numbers noted.
    pub noted: LinkedList<u32>,
    /// The numbers that were answered as the least.
    pub seen: LinkedList<u32>,
    /// How many of the seats have ended: they drew and there was no number left.
    pub ended: u64,
}
