//! What a worker is at in a phase: nothing, a job, or its end for this phase.
use crate::job_progress::JobProgress;

/// What a worker has of a job.
#[derive(Clone, Copy, Debug, PartialEq, Eq)]
pub struct Held {
    /// The job's number in its phase, from 0.
    pub job: u32,
    /// How far its segment has come.
    pub progress: JobProgress,
    /// It was made known that it has ended the run.
    pub noted: bool,
}

/// What a worker is at in a phase.
#[derive(Clone, Copy, Debug, PartialEq, Eq)]
pub enum Worker {
    /// It has no job, and may draw one.
    Idle,
    /// It has found no job left.
    Ended,
    /// It has this job.
    Working(Held),
}
