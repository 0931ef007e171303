//! The commands.
/// What a user asks for by `monitor`.
#[derive(Clone, Copy, Debug, PartialEq, Eq)]
pub enum Command {
    /// The list of the commands.
    Help,
    /// The position.
    Where,
    /// That the next resume goes to a turn, so many instructions into it.
    Turn {
        /// The turn, from 1.
        turn: u64,
        /// How many instructions.
        count: u64,
    },
    /// That the next resume goes to this step.
    Go(u64),
    /// Lines of the trace up to here.
    Trace {
        /// The first turn.
        first: u64,
        /// The last turn.
        last: u64,
    },
    /// What each thread does.
    Threads,
    /// Who holds mutexes, and who waits.
    Locks,
    /// The turns so far that changed one of some bytes.
    Writers(Span),
    /// Bytes of the shared memory.
    Shared(Span),
    /// What the guest has written up to here.
    Output,
    /// A command that lacks a number, or has one that can't be read.
    NoNumber,
    /// None that there is.
    Unknown,
}

/// Some addresses.
#[derive(Clone, Copy, Debug, PartialEq, Eq)]
pub struct Span {
    /// The first address.
    pub start: u32,
    /// How many bytes.
    pub count: u32,
}
