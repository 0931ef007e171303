//! What became of a job: ran, or skipped.
use crate::finished_job::FinishedJob;

/// What became of a job.
#[derive(Drop)]
pub enum Outcome {
    /// It was run.
    Ran(FinishedJob),
    /// It wasn't run to its end, since a lower job ends the run.
    Skipped,
}
