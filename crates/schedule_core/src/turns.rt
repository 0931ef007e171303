//! The turns of a world, and the phases that they open.
ghost use Rattle.std.specs.Prelude.{◌≡◌, ◌≤◌, [], replicate, vec_len};
ghost use Rattle.std.specs.Vec.{vec_capacity};
ghost use Rattle.token.specs.RunInTurn.{point_of};

use crate::event_fault::EventFault;
use crate::scene::Scene;
use crate::seat::Seat;
use crate::slot::Slot;
use crate::stepped_segment::SteppedSegment;
use std::alloc::AllocError;
use token::{Kept, Need, RunOutcome, Serial, TurnFault, Work};

impl Scene {
    ghost use Rattle.std.specs.Prelude.{◌≡◌, ◌≤◌, true, is_some, length, slice_get, None, Some, IfSome, OnOk, OnErr};
    ghost use Rattle.schedule.specs.Phase.{advanced, begun};
    ghost use Rattle.schedule.specs.declared.event.Event.TheVariants as event;
    ghost use Rattle.token.specs.declared.need.Need.TheVariants as need;
    ghost use Rattle.abi.specs.Limits as limit;
    ghost use Rattle.schedule_core.specs.Jobs.{job_of, verdict_by};
    ghost use Rattle.schedule_core.specs.Scene.{Answers, Does, GoesOn, HasRoom, IsDesk, IsSound, NeedsNext, Settles, TakesTurn, counts_of, keeper_progress, opened_in, point_at, settled_from, start_in};
    ghost use Rattle.schedule_core.specs.Tally.{is_posted, is_posted_at};

    /// The keeper's segment goes on by an instruction, or stops.
    pub(crate) fn hold(&mut self) -> Result<(), EventFault>
        requires { GoesOn self.old }
        ensures { Answers self.old event.Hold self.new result }
    {
        let Need::Keeper(work) = self.serial.need() else {
            return Err(EventFault::NotEnabled);
        };
        match &mut self.keeper {
            Some(underway) => {
                if underway.has_stopped() {
                    return Err(EventFault::NotEnabled);
                }
                underway.go_on()?;
                Ok(())
            }
            None => {
                self.begin_keeper(work)?;
                Ok(())
            }
        }
    }

    /// The keeper's segment begins and goes on by an instruction, or stops at once.
    fn begin_keeper(&mut self, work: Work) -> Result<(), AllocError>
        requires needs { NeedsNext self.old (need.Keeper work) }
        requires none { self.old.keeper ≡ None }
        ensures sound { IsSound self.new }
        ensures serial { self.new.serial ≡ self.old.serial }
        ensures counts { counts_of self.new ≡ counts_of self.old }
        ensures ok { OnOk result (keeper_progress self.new.keeper ≡ advanced (verdict_by (point_at self.old).state.memory work 0) begun) }
        ensures err { OnErr result (self.new.keeper ≡ None) }
    {
        let mut underway = SteppedSegment::begin(work, self.serial.now().try_clone()?);
        underway.go_on()?;
        self.keeper = Some(underway);
        Ok(())
    }

    /// Does the next turn.
    pub(crate) fn turn(&mut self) -> Result<(), EventFault>
        requires { GoesOn self.old }
        ensures { Answers self.old event.Turn self.new result }
    {
        match self.serial.need() {
            Need::Segment(work) => self.segment_turn(work),
            Need::Keeper(work) => self.keeper_turn(work),
            Need::Wake { thread } => {
                self.wake_turn(thread)?;
                Ok(())
            }
            Need::Ended(_) => Err(EventFault::NotEnabled),
        }
    }

    /// The turn of a thread whose job's result was posted.
    fn segment_turn(&mut self, work: Work) -> Result<(), EventFault>
        requires { NeedsNext self.old (need.Segment work) }
        ensures { TakesTurn self.old (need.Segment work) self.new result }
    {
        let Some(job) = self.posted_job(work.thread) else {
            return Err(EventFault::NotEnabled);
        };
        self.posted_turn(work, job)?;
        Ok(())
    }

    /// The job of a thread, where its result was posted.
    fn posted_job(&self, thread: u32) -> Option<usize>
        ensures posted { is_some result ≡ is_posted_at (counts_of self.now).fates (job_of (start_in self.now) thread) }
        ensures job { IfSome result (λ job.
            (job_of (start_in self.now) thread ≡ Some job) × (is_posted (slice_get (counts_of self.now).fates job) ≡ true)) }
    {
        let job = self.job_of(thread)?;
        match self.slots.get(job) {
            Some(Slot::Posted(_)) => Some(job),
            _ => None,
        }
    }

    /// The job of a thread.
    #[tactic(auto, unfolding(crate::specs::Jobs::job_of, crate::specs::Jobs::jobs_of))]
    fn job_of(&self, thread: u32) -> Option<usize>
        ensures { result ≡ job_of (start_in self.now) thread }
    {
        let jobs = self.serial.jobs();
        jobs.as_slice().iter().position(|number| *number == thread)
    }

    /// The turn of a thread with the posted result of its job.
    fn posted_turn(&mut self, work: Work, job: usize) -> Result<(), TurnFault>
        requires needs { NeedsNext self.old (need.Segment work) }
        requires job { job_of (start_in self.old) work.thread ≡ Some job }
        requires posted { is_posted (slice_get (counts_of self.old).fates job) ≡ true }
        ensures { Does self.old event.Turn self.new result }
    {
        let phase = self.serial.phase();
        match &self.slots[job] {
            Slot::Posted(end) => {
                self.serial.turn(Some(end))?;
                self.settle(phase);
                Ok(())
            }
            _ => Ok(()),
        }
    }

    /// The turn of the keeper, whose segment has stopped.
    fn keeper_turn(&mut self, work: Work) -> Result<(), EventFault>
        requires { NeedsNext self.old (need.Keeper work) }
        ensures { TakesTurn self.old (need.Keeper work) self.new result }
    {
        let Some(underway) = &self.keeper else {
            return Err(EventFault::NotEnabled);
        };
        let Some(stop) = underway.stop else {
            return Err(EventFault::NotEnabled);
        };
        let end = underway.end(stop)?;
        let phase = self.serial.phase();
        self.serial.turn(Some(&end))?;
        self.settle(phase);
        Ok(())
    }

    /// The turn of a woken thread.
    fn wake_turn(&mut self, thread: u32) -> Result<(), TurnFault>
        requires { NeedsNext self.old (need.Wake thread) }
        ensures { Does self.old event.Turn self.new result }
    {
        let phase = self.serial.phase();
        self.serial.turn(None)?;
        self.settle(phase);
        Ok(())
    }

    /// After a turn: no keeper's segment has begun, and where a further phase has begun its workers are idle and
    /// its jobs open.
    fn settle(&mut self, phase: u64)
        requires desk { (point_at self.old).phase ≡ phase →
            IsDesk (start_in self.old) self.old.drawn self.old.seats.items self.old.slots.items }
        requires room { HasRoom self.old.slots self.old.seats }
        requires few { length self.old.seats.items ≤ limit.workers }
        ensures { Settles self.old (settled_from self.old phase) self.new }
    {
        self.keeper = None;
        self.outcome = outcome_of(&self.serial);
        if self.serial.phase() != phase {
            self.open_phase();
        }
    }

    /// Opens the present phase: its workers are idle, and its jobs open.
    pub(crate) fn open_phase(&mut self)
        requires outcome { self.old.outcome ≡ (point_at self.old).ended }
        requires room { HasRoom self.old.slots self.old.seats }
        requires few { length self.old.seats.items ≤ limit.workers }
        requires keeper { self.old.keeper ≡ None }
        ensures { Settles self.old (opened_in self.old) self.new }
    {
        let jobs = self.serial.jobs().len();
        let workers = self.seats.len();
        self.drawn = 0;
        self.least = jobs as u32;
        self.slots.clear();
        add_open(&mut self.slots, jobs);
        self.seats.clear();
        add_idle(&mut self.seats, workers);
    }
}

/// How a run ended, none while a turn may follow.
pub(crate) fn outcome_of(serial: &Serial<Kept>) -> Option<RunOutcome>
    ensures { result ≡ (point_of serial.now).ended }
{
    match serial.need() {
        Need::Ended(outcome) => Some(outcome),
        _ => None,
    }
}

/// Adds so many open jobs.
#[tactic(auto, using(std::proofs::lemmas::List::replicate_more))]
pub(crate) fn add_open(slots: &mut Vec<Slot>, count: usize)
    requires none { slots.old.items ≡ [] }
    requires empty { vec_len slots.old ≡ 0 }
    requires room { count ≤ vec_capacity slots.old }
    ensures items { slots.new.items ≡ replicate count Slot.Open }
    ensures len { vec_len slots.new ≡ count }
    ensures capacity { vec_capacity slots.new ≡ vec_capacity slots.old }
{
    for _ in 0..count {
        slots.push_reserved(Slot::Open);
    }
}

/// Adds so many idle workers.
#[tactic(auto, using(std::proofs::lemmas::List::replicate_more))]
pub(crate) fn add_idle(seats: &mut Vec<Seat>, count: usize)
    requires none { seats.old.items ≡ [] }
    requires empty { vec_len seats.old ≡ 0 }
    requires room { count ≤ vec_capacity seats.old }
    ensures items { seats.new.items ≡ replicate count Seat.Idle }
    ensures len { vec_len seats.new ≡ count }
    ensures capacity { vec_capacity seats.new ≡ vec_capacity seats.old }
{
    for _ in 0..count {
        seats.push_reserved(Seat::Idle);
    }
}
