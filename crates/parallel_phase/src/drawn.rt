//! A drawn job: its number, and what became of it.
use crate::outcome::Outcome;

/// A job that was drawn, and what became of it.
#[derive(Drop)]
pub struct Drawn {
    /// The job's number in its phase, from 0.
    pub number: u32,
    pub outcome: Outcome,
}
