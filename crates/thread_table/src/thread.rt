//! A thread: its status, its hart and how many instructions it has executed.
ghost use Rattle.std.specs.Prelude.{◌≡◌, ◌%◌};

use crate::status::Status;
use ecalls::call_of;
use hart::Hart;

/// A thread of a run.
#[derive(Clone, Copy, Debug, PartialEq, Eq)]
pub struct Thread {
    /// What it does.
    pub status: Status,
    /// Its registers and pc.
    pub hart: Hart,
    /// How many instructions it has executed in the whole run.
    pub executed: u64,
}

impl Thread {
    ghost use Rattle.thread_table.specs.Thread.{started, is_joiner_of};

    /// A thread just made: it is ready, and has executed nothing.
    pub(crate) fn started(hart: Hart) -> Self
        ensures { result ≡ started hart }
    {
        Thread {
            status: Status::Ready,
            hart,
            executed: 0,
        }
    }

    /// Whether it waits for the end of thread `n`: it is blocked, and its hart's call is that join.
    #[tactic(auto, unfolding(crate::specs::Thread::is_joiner_of))]
    pub(crate) fn is_joiner_of(&self, n: u32) -> bool
        ensures { result ≡ is_joiner_of n self.now }
    {
        match call_of(&self.hart).joined() {
            Some(thread) => self.status == Status::Blocked && thread == n,
            None => false,
        }
    }
}

/// What an unused place of the table holds: a thread just made, of a hart whose registers and pc are 0.
impl Default for Thread {
    ghost use Rattle.thread_table.specs.Thread.{blank};

    ghost is_default = { λ thread. thread ≡ blank };

    fn default() -> Self {
        Thread::started(Hart::new(0, 0, 0, 0))
    }
}
