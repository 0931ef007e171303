//! The threads that a packet names.
use crate::numbers::number;

/// The thread that a packet names. Numbers of threads begin with 1.
#[derive(Clone, Copy, Debug, PartialEq, Eq)]
pub enum ThreadId {
    /// Any thread, written 0.
    Any,
    /// All threads, written -1.
    All,
    /// The thread of this number, which isn't 0.
    One(u64),
}

impl ThreadId {
    ghost use Rattle.std.specs.Prelude.{MatchOption};
    ghost use Rattle.gdb_packets.specs.Requests.{Names};

    /// The thread that a text names, none if it is no such text.
    pub fn of_text(text: &[u8]) -> Option<ThreadId>
        ensures { MatchOption result ((id : ThreadId) → ¬ Names text.now id) (Names text.now) }
    {
        match text {
            b"-1" => Some(ThreadId::All),
            _ => match number(text)? {
                0 => Some(ThreadId::Any),
                one => Some(ThreadId::One(one)),
            },
        }
    }
}
