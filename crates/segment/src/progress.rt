//! How far a slice brought a segment: it goes on, or it is over.
use crate::segment_end::SegmentEnd;
use crate::underway::Underway;

/// Where a segment stands after a slice.
#[derive(Drop)]
pub enum Progress {
    /// It goes on.
    GoesOn(Underway),
    /// It has ended.
    Over(SegmentEnd),
}
