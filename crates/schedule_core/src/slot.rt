//! The slot of a job in the present phase: open, drawn, posted or skipped.
use segment::SegmentEnd;

/// What has become of a job, with its result.
#[derive(Drop)]
pub enum Slot {
    /// Nothing yet.
    Open,
    /// Its result was posted.
    Posted(SegmentEnd),
    /// It was skipped.
    Skipped,
}
