//! The segment of a thread, by its row.
ghost use Rattle.std.specs.Prelude.{◌≡◌};
ghost use Rattle.token.specs.Segments as segments;

use segment::Segment;
use thread_table::Thread;

/// The segment of a thread with this row, in a run of this bound.
pub fn segment_of(row: &Thread, bound: u64, quantum: Option<u64>) -> Segment
    ensures { result ≡ segments.segment_of bound quantum row.now }
{
    Segment {
        hart: row.hart,
        left: bound.saturating_sub(row.executed),
        quantum,
    }
}
