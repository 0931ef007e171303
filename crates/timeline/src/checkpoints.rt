//! The checkpoints of a timeline: a bounded number, thinned out.
ghost use Rattle.std.specs.Prelude.{◌≡◌, All, IfOk};
ghost use Rattle.token.specs.Point.{Point};
ghost use Rattle.timeline.specs.Checkpoint.{IsAtMost, IsCheckpoint, IsFirst, KeepsTurn};
ghost use Rattle.timeline.specs.Checkpoints.{AreSound, CanKeep, StaySound, start_of};
ghost use Rattle.timeline.specs.Present.{BeginsAt, IsSound};

use crate::checkpoint::Checkpoint;
use crate::present::Present;
use crate::spacing::Spacing;
use std::alloc::{AllocError, Global};

/// The checkpoints of a timeline.
#[derive(Drop)]
pub(crate) struct Checkpoints {
    alloc: Global,
    spacing: Spacing,
    /// The first position.
    pub(crate) first: Checkpoint,
    /// Those that are kept, ascending.
    pub(crate) kept: Vec<Box<Checkpoint>>,
    /// Those that were left a few steps before where a motion back ended, ascending.
    pub(crate) near: Vec<Box<Checkpoint>>,
    /// The step from which on a further one is kept.
    due: u64,
}

impl Checkpoints {
    /// The first position alone.
    pub(crate) fn new(alloc: Global, spacing: Spacing, first: Checkpoint) -> Self
        requires { IsFirst first }
        ensures sound { AreSound result }
        ensures first { result.first ≡ first }
    {
        Checkpoints {
            alloc,
            spacing,
            first,
            kept: Vec::new(alloc),
            near: Vec::new(alloc),
            due: spacing.every.max(1),
        }
    }

    /// The step from which on a further one is due.
    pub(crate) fn due(&self) -> u64 {
        self.due
    }

    /// Keeps a position, if one is due and memory allows.
    pub(crate) fn keep(&mut self, present: &Present)
        requires { CanKeep self.old present.now }
        ensures { StaySound self.old self.new }
    {
        if self.spacing.most == 0 || present.step_number() < self.due {
            return;
        }
        self.thin_out();
        self.keep_here(present);
    }

    /// Keeps a position, if memory allows. The next one is due after the spacing.
    fn keep_here(&mut self, present: &Present)
        requires { CanKeep self.old present.now }
        ensures { StaySound self.old self.new }
    {
        self.due = present
            .step_number()
            .saturating_add(self.spacing.every.max(1));
        if let Ok(checkpoint) = self.made(present) {
            let _pushed = self.kept.push(checkpoint);
        }
    }

    /// Keeps a position near a goal, if memory allows.
    pub(crate) fn keep_near(&mut self, present: &Present)
        requires { CanKeep self.old present.now }
        ensures { StaySound self.old self.new }
    {
        if let Ok(checkpoint) = self.made(present) {
            let _pushed = self.near.push(checkpoint);
        }
    }

    /// A checkpoint of a position.
    fn made(&self, present: &Present) -> Result<Box<Checkpoint>, AllocError>
        requires { IsSound present.now }
        ensures sound { IfOk result (λ made. IsCheckpoint made.value) }
        ensures turn { IfOk result (λ made. (start : Point) → BeginsAt start present.now → KeepsTurn start made.value) }
    {
        Ok(Box::new(self.alloc, Checkpoint::of(present)?)?)
    }

    /// Drops every second one of the older half, at least one, if as many are kept as may be.
    fn thin_out(&mut self)
        requires { AreSound self.old }
        ensures { StaySound self.old self.new }
    {
        if self.kept.len() < self.spacing.most as usize {
            return;
        }
        let mut place = 0;
        while place < self.kept.len() && place <= self.kept.len() / 2 {
            let _dropped = self.kept.remove(place);
            place += 1;
        }
    }

    /// Forgets those near a goal that are after this step.
    pub(crate) fn forget_near(&mut self, step: u64)
        requires { AreSound self.old }
        ensures { StaySound self.old self.new }
    {
        while let Some(last) = self.near.last() {
            if last.step_number() <= step {
                return;
            }
            let _dropped = self.near.pop();
        }
    }

    /// The last one at a step or before it.
    pub(crate) fn at_most(&self, step: u64) -> &Checkpoint
        requires { AreSound self.now }
        ensures at_most { IsAtMost result.now step }
        ensures turn { KeepsTurn (start_of self.now) result.now }
    {
        let best = later_of(&self.first, &self.kept, step);
        later_of(best, &self.near, step)
    }
}

/// The last of a checkpoint and those of a list that are at a step or before it.
fn later_of<'a>(first: &'a Checkpoint, list: &'a [Box<Checkpoint>], step: u64) -> &'a Checkpoint
    requires first { IsAtMost first.now step }
    requires all { All (λ kept. IsCheckpoint kept.value) list.now }
    ensures at_most { IsAtMost result.now step }
    ensures turn { (start : Point)
        → KeepsTurn start first.now → All (λ kept. KeepsTurn start kept.value) list.now → KeepsTurn start result.now }
{
    let mut best = first;
    for kept in list {
        if kept.step_number() <= step && best.step_number() < kept.step_number() {
            best = kept;
        }
    }
    best
}
