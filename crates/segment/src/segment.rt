//! A segment that is to be executed: a hart with its limits. Runs on a view of a memory.
ghost use Rattle.std.specs.Prelude.{IfOk, IfSome, IfNone};
ghost use Rattle.paged_memory.specs.Snapshot.{cells_of};
ghost use Rattle.segment.specs.Ends.{IsEndOf, GoesOnAt};

use crate::segment_end::SegmentEnd;
use hart::{Hart, SliceEnd, run_coded, run_coded_slice};
use paged_memory::Snapshot;
use std::alloc::AllocError;
use twins::View;

/// After how many instructions it is looked whether a segment is still wanted.
pub const SLICE: u64 = 65536;

/// A segment that is to be executed on a memory.
#[derive(Clone, Copy, Debug, PartialEq, Eq)]
pub struct Segment {
    /// The hart that it begins with.
    pub hart: Hart,
    /// How many instructions the thread may still execute.
    pub left: u64,
    /// After how many instructions it ends at the latest, if it has a quantum.
    pub quantum: Option<u64>,
}

impl Segment {
    /// Executes it on a view of a memory, and answers its end with what it changed of that memory.
    pub fn run(self, base: &Snapshot) -> Result<SegmentEnd, AllocError>
        ensures { IfOk result (IsEndOf (cells_of base.now) self) }
    {
        let mut hart = self.hart;
        let mut view = View::open(base.try_clone()?);
        let code = base.code();
        let (stop, count) = run_coded(code, &mut hart, &mut view, self.left, self.quantum)?;
        SegmentEnd::of(hart, stop, count, &view)
    }

    /// Executes it on a view of a memory, and answers its end if it has one within so many instructions. None if it
    /// goes on then: what it did is gone.
    pub fn run_within(self, base: &Snapshot, most: u64) -> Result<Option<SegmentEnd>, AllocError>
        ensures end { IfOk result (λ end. IfSome end (IsEndOf (cells_of base.now) self)) }
        ensures none { IfOk result (λ end. IfNone end (GoesOnAt (cells_of base.now) self most)) }
    {
        let mut hart = self.hart;
        let mut view = View::open(base.try_clone()?);
        let code = base.code();
        let end = run_coded_slice(code, &mut hart, &mut view, self.left, self.quantum, 0, most)?;
        match end {
            SliceEnd::Unfinished(_) => Ok(None),
            SliceEnd::Stopped(stop, count) => {
                let end = SegmentEnd::of(hart, stop, count, &view)?;
                Ok(Some(end))
            }
        }
    }
}
