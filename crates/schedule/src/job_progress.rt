//! How far a segment has come: the instructions executed, and whether it has stopped.
/// How far a segment has come.
#[derive(Clone, Copy, Debug, PartialEq, Eq)]
pub struct JobProgress {
    /// How many instructions it has executed that go on to a next one. The one that stops it isn't counted.
    pub steps: u64,
    /// It has stopped after them.
    pub stopped: bool,
}
