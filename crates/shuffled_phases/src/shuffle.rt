//! A schedule's number, and what it is for.

/// A schedule's number, and what it is for.
#[derive(Clone, Copy, Debug, PartialEq, Eq)]
pub struct Shuffle {
    /// The number, from 1. The program finds it in x10 of thread 0 at the start.
    pub number: u32,
    /// The first phase that is shuffled, from 1.
    pub first: u64,
    /// The last phase that is shuffled. None is, if it is below the first.
    pub last: u64,
    /// How many choices the program makes by the number, or 0 if there is no limit. It finds it in x11 of thread 0 at the start.
    pub choices: u32,
}
