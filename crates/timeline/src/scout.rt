//! The last halt of an interval, found by going through it.
ghost use Rattle.std.specs.Prelude.{◌≡◌, ◌≤◌, ◌+◌, ◌^◌, false, IfOk, OnOk};
ghost use Rattle.token.specs.Point.{Point};
ghost use Rattle.timeline.specs.Backward.{AreSilent, CanPass, CanReach, Finds, IsToldOf, LeadsTo, Passes, looks};
ghost use Rattle.timeline.specs.Halts.{wanted_by};
ghost use Rattle.timeline.specs.Present.{BeginsAt, CanStep, IsBegun, IsSound, StaysInRun, moment_of, point_at, step_of};

use crate::halt::Halt;
use crate::present::Present;
use crate::stops::Stops;
use std::alloc::AllocError;
use token::TurnFault;

/// A halt, and the step at which it stands.
#[derive(Clone, Copy)]
pub struct FoundHalt {
    pub(crate) step: u64,
    pub(crate) halt: Halt,
}

impl Present {
    /// Goes to a step that the run leads to, and answers the last halt on the way back from there.
    pub(crate) fn last_halt(
        &mut self,
        stops: &Stops<'_>,
        until: u64,
    ) -> Result<Option<FoundHalt>, TurnFault>
        requires { CanReach self.old until }
        ensures { IfOk result (Finds (wanted_by stops.now) self.old until) }
    {
        let mut last = None;
        while self.step_number() < until {
            let found = self.pass(stops, until)?;
            last = found.or(last);
            self.skip(stops, until)?;
        }
        Ok(last)
    }

    /// Goes on in the segment of the present turn, as far as a step, as long as nothing is told of its instructions. If
    /// memory is refused it stands at the turn's start.
    fn skip(&mut self, stops: &Stops<'_>, until: u64) -> Result<(), AllocError>
        requires sound { IsSound self.old }
        requires few { until ≤ 2 ^ 63 }
        requires within { step_of self.old ≤ until }
        ensures stays { StaysInRun self.old self.new }
        ensures since { OnOk result (step_of self.old ≤ step_of self.new) }
        ensures within { OnOk result (step_of self.new ≤ until) }
        ensures silent { OnOk result
            ((start : Point) → BeginsAt start self.old → AreSilent (wanted_by stops.now) start (step_of self.old) (step_of self.new)) }
    {
        if self.moves_other(stops) {
            return Ok(());
        }
        let skipped = match &mut self.underway {
            Some(underway) if !stops.waits_for(underway.work.thread) => {
                underway.skip(stops, until - self.before)
            }
            _ => Ok(()),
        };
        if skipped.is_err() {
            self.underway = None;
        }
        skipped
    }

    /// Goes on by a step if something may be told of it, else as far as the turn goes, and answers the last halt on the way
    /// back from there.
    fn pass(&mut self, stops: &Stops<'_>, until: u64) -> Result<Option<FoundHalt>, TurnFault>
        requires { CanPass self.old until }
        ensures { Passes (wanted_by stops.now) self.old until result self.new }
    {
        self.begin()?;
        if self.looks(stops) {
            self.pass_step(stops)
        } else {
            self.pass_turn(stops, until)
        }
    }

    /// Goes on by a step, and answers what is told of it.
    fn pass_step(&mut self, stops: &Stops<'_>) -> Result<Option<FoundHalt>, TurnFault>
        requires can { CanStep self.old }
        requires leads { LeadsTo self.old (step_of self.old + 1) }
        ensures stays { StaysInRun self.old self.new }
        ensures next { OnOk result (step_of self.new ≡ step_of self.old + 1) }
        ensures found { IfOk result (Finds (wanted_by stops.now) self.old (step_of self.new)) }
    {
        let moves_other = self.moves_other(stops);
        let found = self.back_halt(stops)?;
        let next = self.step_number() + 1;
        self.proceed(&Stops::none(), next)?;
        if moves_other {
            return Ok(Some(FoundHalt {
                step: next,
                halt: Halt::OtherThread,
            }));
        }
        Ok(found)
    }

    /// Goes on as far as the turn goes, if nothing is told of its instructions for what they are.
    fn pass_turn(&mut self, stops: &Stops<'_>, until: u64) -> Result<Option<FoundHalt>, TurnFault>
        requires can { CanPass self.old until }
        requires begun { IsBegun (point_at self.old) self.old.underway }
        requires quiet { looks (wanted_by stops.now) self.old.underway ≡ false }
        ensures { Passes (wanted_by stops.now) self.old until result self.new }
    {
        let moves_other = self.moves_other(stops);
        self.proceed(stops, until)?;
        if moves_other {
            return Ok(Some(FoundHalt {
                step: self.step_number(),
                halt: Halt::OtherThread,
            }));
        }
        Ok(None)
    }

    /// Whether something may be told of the next instruction for what it is.
    fn looks(&self, stops: &Stops<'_>) -> bool
        ensures { result ≡ looks (wanted_by stops.now) self.now.underway }
    {
        match &self.underway {
            Some(underway) => stops.asks_within(underway.work.thread),
            None => false,
        }
    }

    /// What is told of the next instruction for what it is.
    #[tactic(auto, unfolding(crate::specs::Shown::own_at))]
    fn back_halt(&self, stops: &Stops<'_>) -> Result<Option<FoundHalt>, TurnFault>
        requires { CanStep self.now }
        ensures { IfOk result (IsToldOf (wanted_by stops.now) (moment_of self.now) (step_of self.now)) }
    {
        let Some(underway) = &self.underway else {
            return Ok(None);
        };
        let here = self.step_number();
        let event = match underway.step_halt(stops) {
            Some(halt) => Some(halt),
            None => self.call_halt(stops)?,
        };
        if let Some(halt) = event {
            return Ok(Some(FoundHalt {
                step: here + 1,
                halt,
            }));
        }
        Ok(
            underway
                .position_halt(stops)
                .map(|halt| FoundHalt { step: here, halt }),
        )
    }
}
