//! What an exploration came to.

/// What an exploration came to.
#[derive(Drop)]
pub(crate) struct Explored {
    /// Its text.
    pub(crate) text: String,
    /// Whether it failed.
    pub(crate) failed: bool,
}
