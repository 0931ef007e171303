//! The job from which on a phase is shared out.

/// The job from which on a phase is shared out.
#[derive(Clone, Copy)]
pub(crate) struct FirstJob {
    /// Its thread.
    pub(crate) thread: u32,
    /// Its number in the phase, if the gate was told of it.
    pub(crate) told: Option<u32>,
}
