//! A lock that is held, and the call by which it was taken.
ghost use Rattle.std.specs.Prelude.{◌≡◌};
ghost use Rattle.races.specs.Holding.{has};

use crate::held_lock::HeldLock;
use crate::library_call::LibraryCall;

/// A lock that is held, and the call by which it was taken.
#[derive(Clone, Copy)]
pub(crate) struct Holding {
    /// The lock.
    pub(crate) lock: HeldLock,
    /// The call. Its thread holds the lock.
    pub(crate) call: LibraryCall,
}

impl Holding {
    /// Whether a thread holds an object by it.
    pub(crate) fn has(&self, thread: u32, object: u32) -> bool
        ensures { result ≡ has thread object self.now }
    {
        self.call.thread == thread && self.lock.object == object
    }
}
