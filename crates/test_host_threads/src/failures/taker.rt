//! A taker of turns that digests what it is given.
ghost use Rattle.std.specs.Prelude.{◌≡◌, IfOk};
ghost use Rattle.paged_memory.specs.Snapshot.{cells_of};
ghost use Rattle.parallel_phase.specs.declared.taker_stage.TakerStage.TheVariants.{New};

use crate::failures::digests::with_ran;
use paged_memory::Snapshot;
use parallel_phase::{FinishedJob, Job, TakerStage, TurnTaker};
use std::alloc::{AllocError, Global};
use std::marker::Model;

/// A taker of turns that makes a digest of the jobs that were run.
#[derive(Drop)]
pub struct Digester {
    jobs: Vec<Job>,
    base: Snapshot,
    stage: TakerStage,
    digest: u64,
}

impl Model for Digester {
    ghost use Rattle.test_host_threads.specs.Takers.{TakerState};

    ghost Value = { TakerState };

    ghost view = { λ d. record { jobs = d.jobs.items; base = d.base; stage = d.stage } };
}

impl Digester {
    /// A taker of these jobs on this memory.
    pub fn new(alloc: Global, jobs: &[Job], base: &Snapshot) -> Result<Self, AllocError>
        ensures jobs { IfOk result (λ taker. (taker.jobs ≡ jobs.now) × (taker.stage ≡ New)) }
        ensures base { IfOk result (λ taker. cells_of taker.base ≡ cells_of base.now) }
    {
        let mut copies = Vec::with_capacity(alloc, jobs.len())?;
        copies.extend_from_slice(jobs)?;
        Ok(Digester {
            jobs: copies,
            base: base.try_clone()?,
            stage: TakerStage::New,
            digest: 0,
        })
    }

    /// The digest of the jobs that it took.
    pub fn digest(&self) -> u64 {
        self.digest
    }
}

impl TurnTaker for Digester {
    ghost use Rattle.paged_memory.specs.Snapshot.{cells_of};

    ghost turns_of = { λ d. d.jobs };

    ghost begins_with = { λ d. cells_of d.base };

    ghost taker_stage = { λ d. d.stage };

    fn begin(&mut self) -> Result<bool, AllocError> {
        self.stage = TakerStage::Going(0);
        Ok(true)
    }

    fn take(&mut self, job: u32, ran: FinishedJob) -> Result<bool, AllocError> {
        self.digest = with_ran(self.digest, &ran);
        self.stage = TakerStage::Going(job + 1);
        Ok(true)
    }
}
