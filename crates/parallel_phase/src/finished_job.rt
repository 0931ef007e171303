//! A job that was run, with the end of its segment.
ghost use Rattle.std.specs.Prelude.{◌≡◌};
ghost use Rattle.paged_memory.specs.Snapshot.{cells_of};
ghost use Rattle.segment.specs.Ends.{IsEndOf};

use paged_memory::Snapshot;
use segment::{Segment, SegmentEnd};
use std::marker::Model;

/// A job that was run: its number, the job, the memory that it began with, and how its segment ended there.
#[derive(Drop)]
pub struct FinishedJob {
    number: u32,
    job: Segment,
    base: Snapshot,
    end: SegmentEnd,
}

impl Model for FinishedJob {
    ghost use Rattle.commit.specs.contracts.patch.Patch as patch;
    ghost use Rattle.paged_memory.specs.Snapshot.{cells_of};
    ghost use Rattle.segment.specs.Ends.{IsEndOf};
    ghost use Rattle.parallel_phase.specs.Ran.{RanState};
    ghost use Rattle.std.specs.Coded.{codes};

    ghost Value = { RanState };

    ghost coded = { Prim.hlevel (codes, patch.the_row.coded) };

    ghost view = { λ r. record { number = r.number; job = r.job; base = r.base; end = r.end } };

    ghost invariant = { λ r. IsEndOf (cells_of r.base) r.job r.end };
}

impl FinishedJob {
    /// A job whose segment has ended so.
    pub fn new(number: u32, job: Segment, base: Snapshot, end: SegmentEnd) -> Self
        requires { IsEndOf (cells_of base) job end }
        ensures { result ≡ record { number = number; job = job; base = base; end = end } }
    {
        FinishedJob {
            number,
            job,
            base,
            end,
        }
    }

    /// The job's number in its phase, from 0.
    pub fn number(&self) -> u32
        ensures { result ≡ self.now.number }
    {
        self.number
    }

    /// The job.
    pub fn job(&self) -> Segment
        ensures { result ≡ self.now.job }
    {
        self.job
    }

    /// How its segment ended: with the hart, stop and count of the one segment of the job on the phase's memory,
    /// and exactly what that changed.
    pub fn end(&self) -> &SegmentEnd
        ensures end { result.now ≡ self.now.end }
        ensures is { IsEndOf (cells_of self.now.base) self.now.job result.now }
    {
        &self.end
    }

    /// The end, alone.
    pub fn into_end(self) -> SegmentEnd
        ensures end { result ≡ self.end }
        ensures is { IsEndOf (cells_of self.base) self.job result }
    {
        let FinishedJob {
            number: _,
            job: _,
            base: _,
            end,
        } = self;
        end
    }
}
