//! What is known of a thread. Plain data.
use crate::timed_turn::TimedTurn;

/// What is known of a thread.
#[derive(Clone, Copy, Debug, PartialEq, Eq)]
pub struct ThreadState {
    /// Its last turn.
    pub last: Option<TimedTurn>,
    /// The turn that let it go since then.
    pub due: Option<TimedTurn>,
    /// How many instructions it executed.
    pub instructions: u64,
    /// How long its turns waited for the token.
    pub token: u64,
}

/// A thread of which nothing is known.
pub(crate) const BLANK: ThreadState = ThreadState {
    last: None,
    due: None,
    instructions: 0,
    token: 0,
};
