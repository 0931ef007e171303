//! A worker's seat in the world: idle, at a job, or ended for this phase.
use crate::stepped_segment::SteppedSegment;
use schedule::Event;

/// The job that a worker has.
#[derive(Drop)]
pub struct SteppedJob {
    /// The job's number in its phase.
    pub(crate) job: u32,
    /// It was made known that it has ended the run.
    pub(crate) noted: bool,
    pub(crate) underway: SteppedSegment,
}

impl SteppedJob {
    ghost use Rattle.std.specs.Prelude.{◌≡◌};
    ghost use Rattle.schedule.specs.Phase.{is_enabled_with};
    ghost use Rattle.schedule_core.specs.Underway.{IsUnderway, verdict_of};
    ghost use Rattle.schedule_core.specs.Scene.{counted_of};

    /// Whether an event of the worker is enabled, where `least` is the least job that was made known to have
    /// ended the run.
    pub(crate) fn allows(&self, least: u32, event: Event) -> bool
        requires { IsUnderway self.now.underway }
        ensures { result ≡ is_enabled_with (λ job steps. verdict_of self.now.underway) least (counted_of self.now) event }
    {
        let stopped = self.underway.has_stopped();
        match event {
            Event::Step(_) => !stopped,
            Event::Note(_) => self.underway.ends_run() && !self.noted,
            Event::Skip(_) => !stopped && least < self.job,
            Event::Post(_) => stopped,
            _ => false,
        }
    }
}

/// A worker's place.
#[derive(Drop)]
pub enum Seat {
    /// It has no job, and may draw one.
    Idle,
    /// It has found no job left in this phase.
    Ended,
    /// It has a job.
    Working(SteppedJob),
}
