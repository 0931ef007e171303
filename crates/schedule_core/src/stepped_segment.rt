//! A job that a worker steps through: its hart and its view.
use hart::{Cause, Hart, Stepped, Stop, Trap, step};
use paged_memory::Snapshot;
use schedule::ends_run;
use segment::SegmentEnd;
use std::alloc::AllocError;
use token::Work;
use twins::View;

/// A segment that is executed an instruction at a time, on a view of the memory that it began with.
#[derive(Drop)]
pub struct SteppedSegment {
    pub(crate) work: Work,
    pub(crate) hart: Hart,
    pub(crate) view: View,
    /// How many instructions it has executed that went on.
    pub(crate) steps: u64,
    /// Why it stopped after them.
    pub(crate) stop: Option<Stop>,
}

impl SteppedSegment {
    ghost use Rattle.std.specs.Prelude.{◌≡◌, ◌&&◌, None, Some, IfOk, OnOk, OnErr, is_some};
    ghost use Rattle.paged_memory.specs.Snapshot.{cells_of};
    ghost use Rattle.schedule.specs.Phase.{advanced, begun, is_end};
    ghost use Rattle.hart.specs.Segment.{counted};
    ghost use Rattle.segment.specs.Ends.{IsEndOf};
    ghost use Rattle.schedule_core.specs.Underway.{HasStopped, IsUnderway, memory_of, progress_of, verdict_of, limit_at};

    /// A segment that has executed nothing, on a memory that it takes over.
    pub(crate) fn begin(work: Work, base: Snapshot) -> Self
        ensures underway { IsUnderway result }
        ensures work { result.work ≡ work }
        ensures memory { memory_of result ≡ cells_of base }
        ensures progress { progress_of result ≡ begun }
    {
        let view = View::open(base);
        let segment = work.segment;
        SteppedSegment {
            work,
            hart: segment.hart,
            view,
            steps: 0,
            stop: None,
        }
    }

    /// Whether it has stopped.
    pub(crate) fn has_stopped(&self) -> bool
        ensures { result ≡ is_some self.now.stop }
    {
        self.stop.is_some()
    }

    /// Whether it has stopped and ends the run.
    pub(crate) fn ends_run(&self) -> bool
        requires { IsUnderway self.now }
        ensures { result ≡ (is_some self.now.stop && is_end (verdict_of self.now)) }
    {
        match self.stop {
            Some(stop) => ends_run(&self.hart, stop),
            None => false,
        }
    }

    /// Executes an instruction, or finds why the segment stops. When memory runs out nothing has changed.
    pub(crate) fn go_on(&mut self) -> Result<(), AllocError>
        requires underway { IsUnderway self.old }
        requires goes { self.old.stop ≡ None }
        ensures underway { IsUnderway self.new }
        ensures work { self.new.work ≡ self.old.work }
        ensures memory { memory_of self.new ≡ memory_of self.old }
        ensures ok { OnOk result (progress_of self.new ≡ advanced (verdict_of self.old) (progress_of self.old)) }
        ensures err { OnErr result (progress_of self.new ≡ progress_of self.old) }
    {
        if let Some(stop) = self.limit() {
            self.stop = Some(stop);
            return Ok(());
        }
        match step(&mut self.hart, &mut self.view) {
            Stepped::Next => {
                self.steps += 1;
                Ok(())
            }
            Stepped::Ecall => {
                self.stop = Some(Stop::Ecall);
                Ok(())
            }
            Stepped::Trap(trap) => {
                self.stop = Some(Stop::Trap(trap));
                Ok(())
            }
            Stepped::OutOfMemory(error) => Err(error),
        }
    }

    /// The stop by the bound or by the quantum, where one of them is reached.
    #[tactic(auto, unfolding(crate::specs::Underway::limit_at))]
    fn limit(&self) -> Option<Stop>
        ensures { result ≡ limit_at self.now.work.segment self.now.steps }
    {
        if self.steps == self.work.segment.left {
            let cause = Cause::BoundReached;
            return Some(Stop::Trap(Trap { cause, value: 0 }));
        }
        match self.work.segment.quantum {
            Some(quantum) if self.steps == quantum => Some(Stop::Quantum),
            _ => None,
        }
    }

    /// The end of the segment, which has stopped, with what it changed of its memory.
    pub(crate) fn end(&self, stop: Stop) -> Result<SegmentEnd, AllocError>
        requires { HasStopped self.now stop }
        ensures { IfOk result (λ end. IsEndOf (memory_of self.now) self.now.work.segment end) }
    {
        SegmentEnd::of(self.hart, stop, self.count(stop), &self.view)
    }

    /// How many instructions it has executed, an ecall that stopped it included.
    fn count(&self, stop: Stop) -> u64
        requires { HasStopped self.now stop }
        ensures { result ≡ counted stop self.now.steps }
    {
        match stop {
            Stop::Ecall => self.steps + 1,
            Stop::Trap(_) | Stop::Quantum => self.steps,
        }
    }
}
