//! The status of a thread: ready, woken, blocked or done.
ghost use Rattle.std.specs.Prelude.{◌≡◌};

/// What a thread does at present.
#[derive(Clone, Copy, Debug, PartialEq, Eq)]
pub enum Status {
    /// It runs: it has a turn in each phase.
    Ready,
    /// It waited at a condition variable and was woken: at its next turn it takes this mutex.
    Woken(u32),
    /// It waits, and has no turn.
    Blocked,
    /// It has ended with this value.
    Done(u32),
}

impl Status {
    ghost use Rattle.thread_table.specs.Status.{is_ready, has_turn};

    /// Whether the thread runs.
    pub fn is_ready(self) -> bool
        ensures { result ≡ is_ready self }
    {
        self == Status::Ready
    }

    /// Whether the thread has a turn: it is ready or woken.
    pub fn has_turn(self) -> bool
        ensures { result ≡ has_turn self }
    {
        matches!(self, Status::Ready | Status::Woken(_))
    }
}
