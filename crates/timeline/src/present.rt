//! A run at a position: what stands before the turn, and the turn's segment once it has begun.
ghost use Rattle.std.specs.Prelude.{◌≡◌, ◌<◌, ◌≤◌, ◌^◌, None, Some, IfOk, IfSome, OnOk, is_some};
ghost use Rattle.std.specs.Prelude.{◌+◌, length, option_map, OnErr};
ghost use Rattle.token.specs.Point.{IsNeededAt, moved, step_at};
ghost use Rattle.timeline.specs.Backward.{CanReach};
ghost use Rattle.timeline.specs.Checkpoint.{HasBegun};
ghost use Rattle.timeline.specs.Present.{count_of, IsWent};

use crate::checkpoint::Begun;
use crate::halt::Halt;
use crate::present_segment::{PresentSegment, SegmentOutcome};
use crate::stops::Stops;
use std::alloc::AllocError;
use token::{Need, NoRecord, SegmentEnd, Serial, TurnFault};

/// The last step that is counted. No run comes near it: that would take thousands of years.
pub(crate) const MOST_STEPS: u64 = 1 << 63;

/// A run at a position.
#[derive(Drop)]
pub(crate) struct Present {
    /// What stands before the present turn.
    pub(crate) serial: Box<Serial<NoRecord>>,
    /// The segment of the present turn, once it has begun. Where it hasn't, nothing of it is executed.
    pub(crate) underway: Option<PresentSegment>,
    /// How many steps were made before the present turn.
    pub(crate) before: u64,
    /// The thread of the last turn.
    pub(crate) last: u32,
}

impl Present {
    ghost use Rattle.token.specs.RunInTurn.{point_of};
    ghost use Rattle.timeline.specs.Last.{IsLast};
    ghost use Rattle.timeline.specs.Moment.{origin_at};
    ghost use Rattle.token.specs.Point.{need_at};
    ghost use Rattle.timeline.specs.Halting.{IsPassed, IsPlainWalk, IsWalked, address_at, moves_other, threads_at};
    ghost use Rattle.timeline.specs.Calls.{call_at};
    ghost use Rattle.timeline.specs.Halts as halts;
    ghost use Rattle.timeline.specs.Present.{CanGoOn, IsBegun, IsReady, IsSound, Proceeds, SameTurn, StaysInRun, moment_of, point_at, step_of, steps_of};
    ghost use Rattle.timeline.specs.Shown.{own_at};

    /// The first position of a run.
    pub(crate) fn first(serial: Serial<NoRecord>) -> Result<Self, AllocError>
        requires quantum { IfSome (point_of serial).setup.quantum (λ q. 0 < q) }
        requires last { IsLast (point_of serial) 0 }
        ensures sound { IfOk result IsSound }
        ensures point { IfOk result (λ present. point_at present ≡ point_of serial) }
        ensures before { IfOk result (λ present. present.before ≡ 0) }
        ensures underway { IfOk result (λ present. present.underway ≡ None) }
    {
        let alloc = serial.now().allocator();
        Ok(Present {
            serial: Box::new(alloc, serial)?,
            underway: None,
            before: 0,
            last: 0,
        })
    }

    /// How many steps were made.
    pub(crate) fn step_number(&self) -> u64
        requires { IsSound self.now }
        ensures { result ≡ step_of self.now }
    {
        self.before + self.steps()
    }

    /// How many instructions of the present turn were executed.
    pub(crate) fn steps(&self) -> u64
        ensures { result ≡ steps_of self.now.underway }
    {
        match &self.underway {
            Some(underway) => underway.done,
            None => 0,
        }
    }

    /// Begins the segment of the present turn, if it has one that hasn't begun.
    #[tactic(auto, unfolding(crate::specs::Moment::origin_at))]
    pub(crate) fn begin(&mut self) -> Result<(), AllocError>
        requires { IsSound self.old }
        ensures sound { IsSound self.new }
        ensures turn { SameTurn self.old self.new }
        ensures step { step_of self.new ≡ step_of self.old }
        ensures begun { OnOk result (IsBegun (point_at self.new) self.new.underway) }
    {
        if self.underway.is_some() {
            return Ok(());
        }
        match self.serial.need() {
            Need::Segment(work) => {
                let underway = PresentSegment::begin(work, self.serial.base())?;
                self.underway = Some(underway);
                Ok(())
            }
            Need::Keeper(work) => {
                let underway = PresentSegment::begin(work, self.serial.now())?;
                self.underway = Some(underway);
                Ok(())
            }
            Need::Wake { .. } => Ok(()),
            Need::Ended(_) => Ok(()),
        }
    }

    /// Stands where a segment of the present turn stood that was kept.
    pub(crate) fn resume(&mut self, begun: &Begun) -> Result<(), AllocError>
        requires sound { IsSound self.old }
        requires begun { HasBegun (point_at self.old) begun.now }
        requires few { self.old.before + begun.now.done ≤ 2 ^ 63 }
        ensures sound { OnOk result (IsSound self.new) }
        ensures turn { OnOk result (SameTurn self.old self.new) }
        ensures step { OnOk result (step_of self.new ≡ self.old.before + begun.now.done) }
    {
        self.begin()?;
        match &mut self.underway {
            Some(underway) => underway.resume(begun),
            None => unreachable!(),
        }
    }

    /// Goes on within the present turn or over its end, as far as a step that is to come. Answers why it halts before
    /// that, none if it doesn't. If memory is refused it stands at the turn's start at the latest.
    pub(crate) fn go_on(&mut self, stops: &Stops<'_>, until: u64) -> Result<Option<Halt>, TurnFault>
        requires { CanGoOn self.old until }
        ensures proceeds { Proceeds self.old until result self.new }
        ensures walked { IfOk result (λ halt. IsWalked (halts.wanted_by stops.now) self.old halt self.new) }
    {
        self.begin()?;
        if let Some(halt) = self.halt_here(stops) {
            return Ok(Some(halt));
        }
        if let Some(halt) = self.call_halt(stops)? {
            return Ok(Some(halt));
        }
        self.proceed(stops, until)
    }

    /// Goes on within the present turn or over its end, wherever it stands, as far as a step that is to come. If memory is
    /// refused it stands at the turn's start at the latest.
    pub(crate) fn proceed(
        &mut self,
        stops: &Stops<'_>,
        until: u64,
    ) -> Result<Option<Halt>, TurnFault>
        requires goes { CanGoOn self.old until }
        requires begun { IsBegun (point_at self.old) self.old.underway }
        requires call { call_at stops.now.watches.now (moment_of self.old) ≡ None }
        ensures proceeds { Proceeds self.old until result self.new }
        ensures walked { IfOk result (λ halt. IsPlainWalk (halts.wanted_by stops.now) self.old halt self.new) }
    {
        let progress = self.progress(stops, until - self.before);
        match progress {
            Ok(SegmentOutcome::Stays) => Ok(None),
            Ok(SegmentOutcome::Halts(halt)) => Ok(Some(halt)),
            Ok(SegmentOutcome::Over(end)) => {
                self.turn(end.as_ref())?;
                Ok(None)
            }
            Err(refused) => {
                self.underway = None;
                Err(TurnFault::from(refused))
            }
        }
    }

    /// Goes on to a step that the run leads to.
    pub(crate) fn advance(&mut self, step: u64) -> Result<(), TurnFault>
        requires { CanReach self.old step }
        ensures stays { StaysInRun self.old self.new }
        ensures there { OnOk result (step_of self.new ≡ step) }
    {
        while self.step_number() < step {
            self.begin()?;
            self.proceed(&Stops::none(), step)?;
        }
        Ok(())
    }

    /// What becomes of the present turn within so many of its instructions.
    fn progress(&mut self, stops: &Stops<'_>, most: u64) -> Result<SegmentOutcome, AllocError>
        requires ready { IsReady self.old }
        requires further { steps_of self.old.underway < most }
        requires call { call_at stops.now.watches.now (moment_of self.old) ≡ None }
        ensures turn { SameTurn self.old self.new }
        ensures progress { IfOk result (λ progress. IsWent self.old most progress self.new) }
        ensures passed { IfOk result (λ progress. IsPassed (halts.wanted_by stops.now) self.old progress self.new) }
    {
        match &mut self.underway {
            Some(underway) => {
                if underway.trap.is_some() {
                    return Ok(SegmentOutcome::Halts(underway.halt_at_trap(stops)));
                }
                if stops.asks_within(underway.work.thread) {
                    underway.go_looking(stops, most)
                } else {
                    underway.go_on(most)
                }
            }
            None => match self.serial.need() {
                Need::Ended(_) => Ok(SegmentOutcome::Halts(Halt::End)),
                _ => Ok(SegmentOutcome::Over(None)),
            },
        }
    }

    /// Does the present turn, with the end of its segment, or with none at a wake. If memory is refused it stands at the
    /// turn's start.
    fn turn(&mut self, end: Option<&SegmentEnd>) -> Result<(), TurnFault>
        requires needed { IsNeededAt (point_at self.old) (option_map (λ end. end.now) end) }
        requires few { self.old.before + count_of (option_map (λ end. end.now) end) ≤ 2 ^ 63 }
        requires quantum { IfSome (point_at self.old).setup.quantum (λ q. 0 < q) }
        requires last { IsLast (point_at self.old) self.old.last }
        ensures sound { IsSound self.new }
        ensures underway { self.new.underway ≡ None }
        ensures ok { OnOk result
            ((point_at self.new ≡ moved (point_at self.old) (step_at (point_at self.old) (option_map (λ end. end.now) end.entry)))
            × (self.new.before ≡ self.old.before + count_of (option_map (λ end. end.now) end.entry))) }
        ensures err { OnErr result ((point_at self.new ≡ point_at self.old) × (self.new.before ≡ self.old.before)) }
    {
        let count = count_of(end);
        self.underway = None;
        match self.serial.turn(end) {
            Ok(turn) => {
                self.before += count;
                self.last = turn.thread;
                Ok(())
            }
            Err(fault) => Err(fault),
        }
    }

    /// Why it halts at the present position, none if it doesn't.
    #[tactic(auto, unfolding(crate::specs::Shown::own_at))]
    fn halt_here(&self, stops: &Stops<'_>) -> Option<Halt>
        requires { IsReady self.now }
        ensures { result ≡ halts.first_of (address_at (halts.wanted_by stops.now) (own_at (moment_of self.now)))
            (threads_at (halts.wanted_by stops.now) (point_at self.now)) }
    {
        if let Some(underway) = &self.underway {
            if let Some(halt) = underway.position_halt(stops) {
                return Some(halt);
            }
        }
        if self.has_new_thread(stops) {
            return Some(Halt::NewThread);
        }
        if self.moves_other(stops) {
            return Some(Halt::OtherThread);
        }
        None
    }

    /// Whether another thread has its turn than the one that may move alone.
    pub(crate) fn moves_other(&self, stops: &Stops<'_>) -> bool
        ensures { result ≡ moves_other stops.now.alone (need_at (point_at self.now)) }
    {
        match self.serial.need() {
            Need::Segment(work) | Need::Keeper(work) => stops.forbids(work.thread),
            Need::Wake { thread } => stops.forbids(thread),
            Need::Ended(_) => false,
        }
    }

    /// Whether there are more threads than were known.
    fn has_new_thread(&self, stops: &Stops<'_>) -> bool
        ensures { result ≡ halts.has_more stops.now.known_threads (length (point_at self.now).state.threads) }
    {
        match stops.known_threads {
            Some(known) => self.serial.threads().len() > known as usize,
            None => false,
        }
    }
}

/// How many steps a turn has that ends so: one at a wake.
fn count_of(end: Option<&SegmentEnd>) -> u64
    ensures { result ≡ count_of (option_map (λ end. end.now) end.entry) }
{
    match end {
        Some(end) => end.count,
        None => 1,
    }
}
