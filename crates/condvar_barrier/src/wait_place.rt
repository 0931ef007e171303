//! Where a thread waits: at a condition variable, or at a barrier.
/// What a thread waits at.
#[derive(Clone, Copy, Debug, PartialEq, Eq)]
pub enum WaitPlace {
    /// The queue of a condition variable, for which it gave a mutex back. Both numbers are 0 to 63.
    Condition { condition: u8, mutex: u8 },
    /// A barrier, 0 to 63, at which it named a count, 1 to 256.
    Barrier { barrier: u8, count: u16 },
}
