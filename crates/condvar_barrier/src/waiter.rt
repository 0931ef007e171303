//! A thread in the list of those that wait.
ghost use Rattle.std.specs.Prelude.{◌≡◌};
ghost use Rattle.condvar_barrier.specs.Objects.{queued_at, arrived_at, names_another};

use crate::wait_place::WaitPlace;
use crate::woken::Woken;

/// A thread that waits, and what it waits at.
#[derive(Clone, Copy, Debug, PartialEq, Eq)]
pub struct Waiter {
    /// The thread's number, 0 to 255.
    pub thread: u8,
    pub place: WaitPlace,
}

impl Waiter {
    /// The thread and its mutex, where it waits in the queue of this condition variable.
    pub(crate) fn queued_at(&self, condition: u32) -> Option<Woken>
        ensures { result ≡ queued_at condition self.now.thread self.now.place }
    {
        match self.place {
            WaitPlace::Condition {
                condition: number,
                mutex,
            } if u32::from(number) == condition => Some(Woken {
                thread: self.thread,
                mutex,
            }),
            _ => None,
        }
    }

    /// The thread, where it waits at this barrier.
    pub(crate) fn arrived_at(&self, barrier: u32) -> Option<u8>
        ensures { result ≡ arrived_at barrier self.now.thread self.now.place }
    {
        match self.place {
            WaitPlace::Barrier {
                barrier: number,
                ..
            } if u32::from(number) == barrier => Some(self.thread),
            _ => None,
        }
    }

    /// Whether it waits at this barrier and named another count.
    pub(crate) fn names_another(&self, barrier: u32, count: u32) -> bool
        ensures { result ≡ names_another barrier count self.now.place }
    {
        match self.place {
            WaitPlace::Barrier {
                barrier: number,
                count: named,
            } => u32::from(number) == barrier && u32::from(named) != count,
            WaitPlace::Condition { .. } => false,
        }
    }
}

/// What stands in unused room.
impl Default for Waiter {
    fn default() -> Self {
        Waiter {
            thread: 0,
            place: WaitPlace::Barrier {
                barrier: 0,
                count: 0,
            },
        }
    }
}
