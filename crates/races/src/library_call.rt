//! A call of a library by the program: who made it, when, and where.

/// Where a program called the library that gave a hint.
#[derive(Clone, Copy, Debug, PartialEq, Eq)]
pub struct LibraryCall {
    /// The number of the turn in which the hint came.
    pub turn: u64,
    /// How many instructions the thread executed in the turn before the hint.
    pub instruction: u64,
    /// The place in the program that called, or the hint's own address if no caller was told.
    pub pc: u32,
    /// The program's number of the thread, or the thread's own number if none was told.
    pub thread: u32,
}
