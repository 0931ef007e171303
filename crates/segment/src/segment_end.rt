//! The end of a segment: hart, stop, count and patch.
ghost use Rattle.std.specs.Prelude.{IfOk};
ghost use Rattle.segment.specs.Ended.{IsEnded};

use commit::Patch;
use hart::{Hart, Stop};
use std::alloc::AllocError;
use twins::View;

/// How a segment ended.
#[derive(Drop)]
pub struct SegmentEnd {
    /// The hart at the end.
    pub hart: Hart,
    /// Why it ended.
    pub stop: Stop,
    /// How many instructions it executed.
    pub count: u64,
    /// What it changed of the memory that it began on.
    pub patch: Patch,
}

impl SegmentEnd {
    /// The end of a segment that stopped so on a view, with what the view changed of its base.
    #[inline(always)]
    pub fn of(hart: Hart, stop: Stop, count: u64, view: &View) -> Result<Self, AllocError>
        ensures { IfOk result (IsEnded hart stop count view.now) }
    {
        let patch = Patch::of(view.base().allocator(), view)?;
        Ok(SegmentEnd {
            hart,
            stop,
            count,
            patch,
        })
    }
}
