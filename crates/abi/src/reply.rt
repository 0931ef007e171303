//! What a call comes to: a code with its value, a wait, or an end. Plain data.
use crate::code::Code;

/// What a call comes to for the thread that makes it.
#[derive(Clone, Copy, Debug, PartialEq, Eq)]
pub enum Reply {
    /// It is completed with a code in x10, and with a value in x11 where it has one.
    Completed { code: Code, value: Option<u32> },
    /// The caller waits. What lets it go completes the call.
    Waits,
    /// The caller or the run has ended.
    Ends,
}
