//! A thread that a signal lets go, with the mutex that it takes.
/// A thread that a signal or a broadcast woke, and the mutex that its next turn takes.
#[derive(Clone, Copy, Debug, Default, PartialEq, Eq)]
pub struct Woken {
    /// The thread's number, 0 to 255.
    pub thread: u8,
    /// The mutex's number, 0 to 63.
    pub mutex: u8,
}
