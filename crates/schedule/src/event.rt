//! The events of a written schedule.
/// An event of a schedule. Workers have numbers from 0.
#[derive(Clone, Copy, Debug, PartialEq, Eq)]
pub enum Event {
    /// This worker draws the phase's next job, or finds that none is left.
    Draw(u32),
    /// This worker executes one instruction of its job, or finds that its job stops.
    Step(u32),
    /// This worker makes known that its job has ended the run.
    Note(u32),
    /// This worker gives its job up, since a job before it has ended the run.
    Skip(u32),
    /// This worker hands over the result of its job.
    Post(u32),
    /// The thread that keeps the token executes one instruction, or finds that its segment stops.
    Hold,
    /// The next turn is done.
    Turn,
}
