//! Who has the next turn: a fresh segment, the keeper, or a woken thread.
ghost use Rattle.std.specs.Prelude.{◌≡◌};
ghost use Rattle.token.specs.Due.{thread_due, mutex_due};

/// Who is due: whose turn the next one is.
#[derive(Clone, Copy, Debug, PartialEq, Eq)]
pub enum Due {
    /// The next thread of the phase's list, for a segment on the phase's first version.
    Fresh {
        /// The thread's number.
        thread: u32,
    },
    /// The thread that keeps the token, for a segment on the last version.
    Keeper {
        /// The thread's number.
        thread: u32,
    },
    /// The next thread of the phase's list, which was woken: it takes a mutex and executes nothing.
    Woken {
        /// The thread's number.
        thread: u32,
        /// The mutex.
        mutex: u32,
    },
}

impl Due {
    /// The thread's number.
    pub fn thread(self) -> u32
        ensures { result ≡ thread_due self }
    {
        match self {
            Due::Fresh { thread } | Due::Keeper { thread } | Due::Woken { thread, .. } => thread,
        }
    }

    /// The mutex that a woken thread takes, and 0 where none is woken.
    pub fn mutex(self) -> u32
        ensures { result ≡ mutex_due self }
    {
        match self {
            Due::Woken { mutex, .. } => mutex,
            Due::Fresh { .. } | Due::Keeper { .. } => 0,
        }
    }
}
