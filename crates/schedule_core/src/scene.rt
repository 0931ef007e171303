//! The scene of a world: the serial state with the slots and seats of its phase.
use crate::seat::{Seat, SteppedJob};
use crate::slot::Slot;
use crate::stepped_segment::SteppedSegment;
use schedule::Event;
use std::alloc::AllocError;
use token::{Kept, RunOutcome, Serial, Work};

/// The serial state of a run with the half-run jobs of its present phase.
#[derive(Drop)]
pub struct Scene {
    pub(crate) serial: Serial<Kept>,
    /// How many numbers were drawn in the phase.
    pub(crate) drawn: u32,
    /// The least job that was made known to have ended the run, or the number of jobs.
    pub(crate) least: u32,
    /// Each worker's place.
    pub(crate) seats: Vec<Seat>,
    /// What has become of each job.
    pub(crate) slots: Vec<Slot>,
    /// The segment of the thread that keeps the token, once it has begun.
    pub(crate) keeper: Option<SteppedSegment>,
    /// How the run ended, none while a turn may follow.
    pub(crate) outcome: Option<RunOutcome>,
}

impl Scene {
    ghost use Rattle.std.specs.Prelude.{◌≡◌, ◌<◌, length, Some, Ok, IfOk};
    ghost use Rattle.schedule.specs.Phase.{drawing, is_enabled, worker_of as worker_in};
    ghost use Rattle.schedule.specs.declared.event.Event.TheVariants as event;
    ghost use Rattle.schedule_core.specs.Jobs.{work_of, verdicts_of};
    ghost use Rattle.schedule_core.specs.Scene.{IsSound, IsSeat, MayDo, Works, counts_of, start_in, worker_of};

    /// The segment of a thread in this phase.
    #[tactic(auto, unfolding(crate::specs::Jobs::work_of))]
    pub(crate) fn work_of(&self, thread: u32) -> Work
        requires { thread < length (start_in self.now).threads }
        ensures { result ≡ work_of (start_in self.now) thread }
    {
        Work {
            thread,
            segment: self.serial.segment_of(thread),
        }
    }

    /// Whether an event of a worker is enabled.
    pub(crate) fn allows(&self, worker: u32, event: Event) -> bool
        requires sound { IsSound self.now }
        requires there { worker < length self.now.seats.items }
        requires its { worker_in event ≡ Some worker }
        ensures { result ≡ is_enabled (verdicts_of (start_in self.now)) (counts_of self.now) event }
    {
        match (&self.seats[worker as usize], event) {
            (Seat::Idle, Event::Draw(_)) => true,
            (Seat::Working(held), event) => held.allows(self.least, event),
            _ => false,
        }
    }

    /// What a worker is at that draws the next number.
    pub(crate) fn next_seat(&self) -> Result<Seat, AllocError>
        requires { IsSound self.now }
        ensures seat { IfOk result (IsSeat (start_in self.now)) }
        ensures worker { IfOk result (λ seat. worker_of seat ≡ drawing self.now.drawn (length self.now.slots.items)) }
    {
        if self.drawn as usize >= self.slots.len() {
            return Ok(Seat::Ended);
        }
        let jobs = self.serial.jobs();
        let work = self.work_of(jobs.as_slice()[self.drawn as usize]);
        let base = self.serial.base().try_clone()?;
        Ok(Seat::Working(SteppedJob {
            job: self.drawn,
            noted: false,
            underway: SteppedSegment::begin(work, base),
        }))
    }

    /// A worker draws a number.
    pub(crate) fn draw(&mut self, worker: u32) -> Result<(), AllocError>
        requires { MayDo self.old worker (event.Draw worker) }
        ensures { Works self.old (event.Draw worker) self.new result }
    {
        let seat = self.next_seat()?;
        self.drawn += 1;
        self.seats[worker as usize] = seat;
        Ok(())
    }

    /// A worker's job goes on by an instruction, or stops.
    pub(crate) fn step(&mut self, worker: u32) -> Result<(), AllocError>
        requires { MayDo self.old worker (event.Step worker) }
        ensures { Works self.old (event.Step worker) self.new result }
    {
        match &mut self.seats[worker as usize] {
            Seat::Working(held) => held.underway.go_on(),
            _ => Ok(()),
        }
    }

    /// A worker makes known that its job has ended the run.
    pub(crate) fn note(&mut self, worker: u32)
        requires { MayDo self.old worker (event.Note worker) }
        ensures { Works self.old (event.Note worker) self.new (Ok tt) }
    {
        if let Seat::Working(held) = &mut self.seats[worker as usize] {
            held.noted = true;
            self.least = self.least.min(held.job);
        }
    }

    /// A worker gives its job up.
    pub(crate) fn skip(&mut self, worker: u32)
        requires { MayDo self.old worker (event.Skip worker) }
        ensures { Works self.old (event.Skip worker) self.new (Ok tt) }
    {
        if let Seat::Working(held) = &self.seats[worker as usize] {
            let job = held.job as usize;
            self.seats[worker as usize] = Seat::Idle;
            self.slots[job] = Slot::Skipped;
        }
    }

    /// A worker hands over the result of its job.
    pub(crate) fn post(&mut self, worker: u32) -> Result<(), AllocError>
        requires { MayDo self.old worker (event.Post worker) }
        ensures { Works self.old (event.Post worker) self.new result }
    {
        let Seat::Working(held) = &self.seats[worker as usize] else {
            return Ok(());
        };
        let Some(stop) = held.underway.stop else {
            return Ok(());
        };
        let job = held.job as usize;
        let end = held.underway.end(stop)?;
        self.seats[worker as usize] = Seat::Idle;
        self.slots[job] = Slot::Posted(end);
        Ok(())
    }
}
