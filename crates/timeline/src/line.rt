//! A run at a position, with its checkpoints, and its motions.
ghost use Rattle.std.specs.Prelude.{◌≡◌, ◌≤◌, ◌<◌, min, IfOk, IfSome, OnOk};
ghost use Rattle.token.specs.RunInTurn.{point_of};
ghost use Rattle.timeline.specs.Backward.{nothing_at};

use crate::checkpoint::Checkpoint;
use crate::checkpoints::Checkpoints;
use crate::halt::Halt;
use crate::present::{MOST_STEPS, Present};
use crate::spacing::Spacing;
use crate::stops::Stops;
use std::alloc::{AllocError, Global};
use token::{NoRecord, Serial, TurnFault};

/// How many steps before its goal a motion back leaves checkpoints.
const NEAR: [u64; 3] = [4096, 512, 64];

/// A run at a position, with its checkpoints.
#[derive(Drop)]
pub struct Line {
    pub(crate) present: Present,
    pub(crate) checkpoints: Checkpoints,
}

impl Line {
    ghost use Rattle.timeline.specs.Backward.{GoesBack};
    ghost use Rattle.timeline.specs.Going.{IsSought, IsStepped, goal_of};
    ghost use Rattle.timeline.specs.Halting.{HaltsThere, NoneBetween};
    ghost use Rattle.timeline.specs.Halts.{nothing, wanted_by};
    ghost use Rattle.timeline.specs.Last.{IsLast};
    ghost use Rattle.timeline.specs.Line.{IsLine, MovesBack, MovesOn, start_of};
    ghost use Rattle.timeline.specs.Present.{step_of};

    /// A run at its first position.
    pub(crate) fn open(
        alloc: Global,
        serial: Serial<NoRecord>,
        spacing: Spacing,
    ) -> Result<Self, AllocError>
        requires quantum { IfSome (point_of serial).setup.quantum (λ q. 0 < q) }
        requires last { IsLast (point_of serial) 0 }
        ensures line { IfOk result IsLine }
        ensures start { IfOk result (λ line. start_of line ≡ point_of serial) }
        ensures first { IfOk result (λ line. step_of line.present ≡ 0) }
    {
        let present = Present::first(serial)?;
        let first = Checkpoint::of(&present)?;
        Ok(Line {
            present,
            checkpoints: Checkpoints::new(alloc, spacing, first),
        })
    }

    /// Makes a step. False if the run has none from here.
    pub(crate) fn step(&mut self) -> Result<bool, TurnFault>
        requires { IsLine self.old }
        ensures moves { MovesOn nothing self.old result self.new }
        ensures stepped { IfOk result (λ is. IsStepped self.old.present is self.new.present) }
    {
        match self.forward(&Stops::none(), 1)? {
            Halt::End => Ok(false),
            _ => Ok(true),
        }
    }

    /// Goes forward to the first position from the present one on at which it is asked to halt, or to the last one.
    /// After so many steps without one it stands there and answers that it goes on.
    pub(crate) fn forward(&mut self, stops: &Stops<'_>, most: u64) -> Result<Halt, TurnFault>
        requires { IsLine self.old }
        ensures moves { MovesOn (wanted_by stops.now) self.old result self.new }
        ensures passed { IfOk result
            (λ halt. NoneBetween (wanted_by stops.now) (start_of self.old) (step_of self.old.present) (step_of self.new.present)) }
        ensures since { OnOk result (step_of self.old.present ≤ step_of self.new.present) }
        ensures halts { IfOk result (λ halt. HaltsThere (wanted_by stops.now) (goal_of self.old.present most) halt self.new.present) }
    {
        let here = self.present.step_number();
        let until = here + most.min(MOST_STEPS - here);
        while self.present.step_number() < until {
            let goal = self.goal(until);
            if let Some(halt) = self.present.go_on(stops, goal)? {
                return Ok(halt);
            }
            self.checkpoints.keep(&self.present);
        }
        Ok(Halt::GoesOn)
    }

    /// How far to go at once: to where a checkpoint is due, and no further than this.
    fn goal(&self, until: u64) -> u64
        requires line { IsLine self.now }
        requires further { step_of self.now.present < until }
        ensures further { step_of self.now.present < result }
        ensures within { result ≤ until }
    {
        let due = self.checkpoints.due();
        if self.present.step_number() < due && due < until {
            due
        } else {
            until
        }
    }

    /// Goes back to the last position before the present one at which it is asked to halt, or to the first one. It looks
    /// through one interval between checkpoints, and if it finds none there it stands at the interval's start and
    /// answers that it goes on.
    pub(crate) fn back(&mut self, stops: &Stops<'_>) -> Result<Halt, TurnFault>
        requires { IsLine self.old }
        ensures moves { MovesBack self.old result self.new }
        ensures back { IfOk result
            (λ halt. GoesBack (wanted_by stops.now) (start_of self.old) (step_of self.old.present) halt (step_of self.new.present)) }
    {
        let here = self.present.step_number();
        if here == 0 {
            return Ok(Halt::Start);
        }
        let mut scout = self.checkpoints.at_most(here - 1).restored()?;
        let from = scout.step_number();
        let found = scout.last_halt(stops, here)?;
        match found {
            Some(found) => {
                self.go_back(found.step)?;
                Ok(found.halt)
            }
            None => {
                self.go_back(from)?;
                Ok(where_nothing_is(from))
            }
        }
    }

    /// Goes to a step, or to the last position if the run has none so far on. False if so many steps were made
    /// and it isn't there yet.
    pub(crate) fn seek(&mut self, step: u64, most: u64) -> Result<bool, TurnFault>
        requires { IsLine self.old }
        ensures moves { MovesOn nothing self.old result self.new }
        ensures sought { IfOk result (λ is. IsSought self.old.present step most is self.new.present) }
    {
        let here = self.present.step_number();
        if step < here {
            self.go_back(step)?;
            return Ok(true);
        }
        match self.forward(&Stops::none(), most.min(step - here))? {
            Halt::End => Ok(true),
            _ => Ok(self.present.step_number() == step),
        }
    }

    /// Goes back to a step, and leaves checkpoints on the last steps before it.
    fn go_back(&mut self, step: u64) -> Result<(), TurnFault>
        requires { IsLine self.old }
        ensures moves { MovesBack self.old result self.new }
        ensures there { OnOk result (step_of self.new.present ≡ min step (step_of self.old.present)) }
    {
        if step >= self.present.step_number() {
            return Ok(());
        }
        self.checkpoints.forget_near(step);
        let mut present = self.checkpoints.at_most(step).restored()?;
        for distance in NEAR {
            let near = step.saturating_sub(distance);
            if present.step_number() < near {
                present.advance(near)?;
                self.checkpoints.keep_near(&present);
            }
        }
        present.advance(step)?;
        self.present = present;
        Ok(())
    }
}

/// What a motion back answers that has found nothing, and stands at a step.
fn where_nothing_is(step: u64) -> Halt
    ensures { result ≡ nothing_at step }
{
    if step == 0 { Halt::Start } else { Halt::GoesOn }
}
