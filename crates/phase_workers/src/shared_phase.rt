//! The jobs of a phase, by their names, as the caller and its workers share them.
ghost use Rattle.std.specs.Prelude.{◌≡◌, ◌<◌, Some, length, slice_get};
ghost use Rattle.phase_workers.specs.Hands.{IsTold};
ghost use Rattle.phase_workers.specs.Sharing.{IsShared};

use crate::end_facts::EndFacts;
use crate::job_outcome::JobOutcome;
use crate::once_told::OnceTold;
use crate::post::Post;
use phase_jobs::{Gate, SharedJobs};
use std::marker::{Model, PhantomData};

/// A phase whose jobs several host threads draw.
#[derive(Drop)]
pub struct SharedPhase<F: EndFacts> {
    number: u64,
    /// The name of each job, in their order.
    names: Vec<u32>,
    jobs: SharedJobs,
    /// The number of the job of which the gate was told before the phase was shared out.
    told: Option<u32>,
    of: PhantomData<F>,
}

impl<F: EndFacts> Model for SharedPhase<F> {
    ghost use Rattle.phase_workers.specs.Sharing.{SharedState, IsShared};

    ghost Value = { SharedState };

    ghost view = { λ s. record { number = s.number; names = s.names.items; phase = s.jobs } };

    ghost invariant = { λ s. IsShared F.is_end_of s.number s.names.items s.jobs };
}

impl<F: EndFacts> SharedPhase<F> {
    /// The phase of this number, and the names of its jobs.
    pub fn new(number: u64, names: Vec<u32>, jobs: SharedJobs) -> Self
        requires { IsShared F.is_end_of number names.items jobs }
        ensures { result ≡ record { number = number; names = names.items; phase = jobs } }
    {
        SharedPhase {
            number,
            names,
            jobs,
            told: None,
            of: PhantomData,
        }
    }

    /// The same phase, of which the gate was told of this job before.
    pub fn with_told(self, told: Option<u32>) -> Self
        ensures { result ≡ self }
    {
        SharedPhase { told, ..self }
    }

    /// The gate that is told of the jobs of which it wasn't told before.
    pub(crate) fn telling<'a, G: Gate>(&self, gate: &'a G) -> OnceTold<'a, G> {
        OnceTold::new(gate, self.told)
    }

    /// The names of its jobs, in their order.
    pub fn names(&self) -> &[u32]
        ensures { result.now ≡ self.now.names }
    {
        self.names.as_slice()
    }

    /// Its jobs, to be drawn.
    pub fn jobs(&self) -> &SharedJobs
        ensures { result.now ≡ self.now.phase }
    {
        &self.jobs
    }

    /// What is told of a job.
    pub(crate) fn post(&self, number: u32, told: JobOutcome) -> Post<F>
        requires job { number < length self.now.phase.jobs }
        requires told { IsTold self.now.phase number told }
        ensures { (result.phase ≡ self.now.number) × (slice_get self.now.names number ≡ Some result.name) × (result.told ≡ told) }
    {
        Post::new(self.number, self.names[number as usize], told)
    }
}
