//! What order passes through from one event to another.
/// What an event passes its past on to, and what another takes it from.
#[derive(Clone, Copy, Debug)]
pub(crate) enum ClockOwner {
    /// A thread.
    Thread(u8),
    /// The end of a thread.
    Ended(u8),
    /// A mutex.
    Mutex(u32),
    /// An object of hints.
    Object(u32),
    /// What a thread's relaxed loads have seen, for its acquire fences.
    Seen(u8),
    /// What a thread did before its release fences, for its relaxed stores.
    Fenced(u8),
}
