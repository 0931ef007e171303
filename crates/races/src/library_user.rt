//! What hints told of the calls of a thread.

/// What hints told of the calls of a thread.
#[derive(Clone, Copy)]
pub(crate) struct LibraryUser {
    /// The place in the program that called the library last.
    pub(crate) place: Option<u32>,
    /// The program's number of the thread that runs here.
    pub(crate) number: Option<u32>,
}
