//! What has become of a job of a phase: open, posted or skipped.
/// What has become of a job.
#[derive(Clone, Copy, Debug, PartialEq, Eq)]
pub enum Fate {
    /// Nothing yet: it waits, or a worker has it.
    Open,
    /// Its result was posted.
    Posted,
    /// It was skipped.
    Skipped,
}
