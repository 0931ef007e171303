//! What comes of a look for the next turn.
use token::RunOutcome;

/// What comes of a look for the next turn of a run.
#[derive(Clone, Copy, Debug, PartialEq, Eq)]
pub(crate) enum Look {
    /// The run had ended so.
    Ended(RunOutcome),
    /// The turn is done.
    Turned,
    /// The turn isn't done: a worker more is wanted for it.
    WantsWorker,
}
