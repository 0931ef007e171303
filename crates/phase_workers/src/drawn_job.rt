//! A job that a host thread drew and that goes on.
use segment::Underway;

/// A job that a host thread drew and that goes on.
#[derive(Drop)]
pub struct DrawnJob {
    /// The job's number in its phase, from 0.
    pub number: u32,
    /// How far it has come.
    pub job: Underway,
}
