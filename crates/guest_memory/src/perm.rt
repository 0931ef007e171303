//! What a page permits: loads, stores and fetches.
/// What a page permits. Any mix is possible; an image never has a page that is both writable and
/// executable.
#[derive(Clone, Copy, Debug, PartialEq, Eq)]
pub struct Perm {
    /// Loads are permitted.
    pub read: bool,
    /// Stores are permitted.
    pub write: bool,
    /// Fetches are permitted.
    pub execute: bool,
}

impl Perm {
    /// What the pages of heaps and stacks permit: loads and stores.
    pub const READ_WRITE: Perm = Perm {
        read: true,
        write: true,
        execute: false,
    };
}
