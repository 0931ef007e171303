//! A guest thread's segment: what it begins with, how it is executed slice by slice, and how it ends.
//!
//! [`Segment`] is one that is to be executed, [`Underway`] one that has begun and goes on, and [`SegmentEnd`] what it comes
//! to. Whose segment it is, and when, say the crates above.
#![tactic(auto)]

mod progress;
mod segment;
mod segment_end;
mod underway;

pub use progress::Progress;
pub use segment::{SLICE, Segment};
pub use segment_end::SegmentEnd;
pub use underway::Underway;
