//! A segment under way: its hart and its view, gone on with by slices.
ghost use Rattle.std.specs.Prelude.{◌≡◌, ◌+◌, ◌<◌, IfOk, min};
ghost use Rattle.hart.specs.Slice.{IsThere};
ghost use Rattle.paged_memory.specs.Snapshot.{cells_of};
ghost use Rattle.segment.specs.Progress.{IsProgress, IsProgressBy, IsWithin};
ghost use Rattle.twins.specs.View as views;

use crate::progress::Progress;
use crate::segment::Segment;
use crate::segment_end::SegmentEnd;
use hart::{Hart, SliceEnd, run_coded_slice};
use paged_memory::Snapshot;
use std::alloc::AllocError;
use std::marker::Model;
use twins::View;

/// A segment that has begun and goes on: where it stands, on a view of the memory that it began on.
#[derive(Drop)]
pub struct Underway {
    segment: Segment,
    hart: Hart,
    view: View,
    /// How many instructions it has executed.
    done: u64,
}

impl Model for Underway {
    ghost use Rattle.segment.specs.Stands.{UnderwayState, Stands};
    ghost use Rattle.twins.specs.View.{base_of};

    ghost Value = { UnderwayState };

    ghost view = { λ u. record { segment = u.segment; base = base_of u.view; done = u.done } };

    ghost invariant = { λ u. Stands u.segment u.done u.hart u.view };
}

/// How far a segment goes on by a slice of so many instructions, if so much is done of what is left.
fn slice_end(done: u64, left: u64, slice: u64) -> u64
    requires { (done < left) × (0 < slice) }
    ensures further { done < result }
    ensures exact { result ≡ min (done + slice) left }
{
    if left - done > slice {
        done + slice
    } else {
        left
    }
}

impl Underway {
    /// Begins a segment on a memory and executes at most so many of its instructions.
    #[inline(always)]
    pub fn begin(segment: Segment, base: &Snapshot, slice: u64) -> Result<Progress, AllocError>
        requires { 0 < slice }
        ensures { IfOk result (IsProgress (cells_of base.now) segment 0) }
    {
        let mut hart = segment.hart;
        let mut view = View::open(base.try_clone()?);
        let code = base.code();
        let end = run_coded_slice(
            code,
            &mut hart,
            &mut view,
            segment.left,
            segment.quantum,
            0,
            slice,
        )?;
        progress(segment, hart, view, end)
    }

    /// Goes on by at most so many instructions. If memory is refused the segment is gone.
    pub fn go_on(self, slice: u64) -> Result<Progress, AllocError>
        requires { 0 < slice }
        ensures { IfOk result (IsProgress (cells_of self.base) self.segment self.done) }
    {
        let Underway {
            segment,
            mut hart,
            mut view,
            done,
        } = self;
        let until = slice_end(done, segment.left, slice);
        let base = view.base().try_clone()?;
        let code = base.code();
        let end = run_coded_slice(
            code,
            &mut hart,
            &mut view,
            segment.left,
            segment.quantum,
            done,
            until,
        )?;
        progress(segment, hart, view, end)
    }
}

/// Where a segment stands whose slice ended so.
#[inline(always)]
fn progress(segment: Segment, hart: Hart, view: View, end: SliceEnd) -> Result<Progress, AllocError>
    requires there { IsThere segment.hart (cells_of (views.base_of view)) segment.left segment.quantum end hart (views.cells_of view) }
    requires within { IsWithin segment end }
    ensures { IfOk result (IsProgressBy (cells_of (views.base_of view)) segment end) }
{
    match end {
        SliceEnd::Unfinished(done) => Ok(Progress::GoesOn(Underway {
            segment,
            hart,
            view,
            done,
        })),
        SliceEnd::Stopped(stop, count) => {
            let end = SegmentEnd::of(hart, stop, count, &view)?;
            Ok(Progress::Over(end))
        }
    }
}
