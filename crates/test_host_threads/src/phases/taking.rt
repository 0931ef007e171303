//! A taker of turns that may begin late and stop early.
ghost use Rattle.std.specs.Prelude.{◌≡◌, IfOk};
ghost use Rattle.paged_memory.specs.Snapshot.{cells_of};
ghost use Rattle.parallel_phase.specs.declared.taker_stage.TakerStage.TheVariants.{New};

use crate::phases::gates::Flag;
use crate::phases::patience::Patience;
use anyhow::Result;
use paged_memory::Snapshot;
use parallel_phase::{FinishedJob, Job, TakerStage, TurnTaker};
use std::alloc::{AllocError, Global};
use std::rt::Clock;

/// A taker that begins once a flag is up, and stops after so many turns.
#[derive(Drop)]
pub struct Taking<'a, R> {
    jobs: Vec<Job>,
    base: Snapshot,
    patience: Patience<'a, R>,
    from: &'a Flag,
    most: u32,
    stage: TakerStage,
    /// The flag came up in time.
    was_let: bool,
}

impl<'a, R: Clock> Taking<'a, R> {
    /// A taker of these jobs' turns that hasn't begun.
    pub fn new(
        rt: &'a R,
        alloc: Global,
        jobs: &[Job],
        base: &Snapshot,
        from: &'a Flag,
        most: u32,
    ) -> Result<Self>
        ensures { IfOk result (λ taker. (taker.jobs.items ≡ jobs.now) × (cells_of taker.base ≡ cells_of base.now) × (taker.stage ≡ New)) }
    {
        Ok(Taking {
            jobs: Vec::from_slice(alloc, jobs)?,
            base: base.try_clone()?,
            patience: Patience::new(rt)?,
            from,
            most,
            stage: TakerStage::New,
            was_let: false,
        })
    }

    /// How far it is, and whether the flag that it waited for came up in time.
    pub fn came_to(&self) -> (TakerStage, bool) {
        (self.stage, self.was_let)
    }
}

impl<'a, R: Clock> TurnTaker for Taking<'a, R> {
    ghost use Rattle.paged_memory.specs.Snapshot.{cells_of};

    ghost turns_of = { λ t. t.jobs.items };

    ghost begins_with = { λ t. cells_of t.base };

    ghost taker_stage = { λ t. t.stage };

    fn begin(&mut self) -> Result<bool, AllocError> {
        self.was_let = self.patience.wait_for(self.from);
        self.stage = TakerStage::Going(0);
        Ok(true)
    }

    fn take(&mut self, job: u32, _ran: FinishedJob) -> Result<bool, AllocError> {
        let goes_on = job + 1 < self.most;
        self.stage = if goes_on {
            TakerStage::Going(job + 1)
        } else {
            TakerStage::Stopped(job + 1)
        };
        Ok(goes_on)
    }
}
