//! What a host thread tells of a job that it drew.
use segment::SegmentEnd;

/// What became of a job at the host thread that drew it.
#[derive(Drop)]
pub(crate) enum JobOutcome {
    /// It ended so.
    Ended(SegmentEnd),
    /// It has no end, since a lower job ends the run.
    Skipped,
    /// It has no end, since memory was refused.
    Refused,
}
