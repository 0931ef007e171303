//! What a step of a host thread at a phase came to.
use crate::job_outcome::JobOutcome;

/// What a step of a host thread at a phase came to.
#[derive(Drop)]
pub(crate) enum StepOutcome {
    /// It holds no job, and none is left to be drawn.
    NoneLeft,
    /// It holds a job that goes on.
    GoesOn,
    /// Its job is over.
    Over {
        /// The job's number in its phase, from 0.
        number: u32,
        /// What became of it.
        told: JobOutcome,
    },
}
