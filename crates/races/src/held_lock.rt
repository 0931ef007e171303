//! A lock that a thread holds.
ghost use Rattle.std.specs.Prelude.{◌≡◌};
ghost use Rattle.races.specs.Holding.{excludes};
ghost use Rattle.races.specs.LockOrder.{is_of};

/// A lock that a thread holds.
#[derive(Clone, Copy, PartialEq, Eq)]
pub(crate) struct HeldLock {
    /// The lock.
    pub(crate) object: u32,
    /// Whether others may hold it too.
    pub(crate) is_shared: bool,
}

impl HeldLock {
    /// Whether it is of an object.
    pub(crate) fn is_of(&self, object: u32) -> bool
        ensures { result ≡ is_of object self.now }
    {
        self.object == object
    }

    /// Whether two threads can't hold both at once.
    pub(crate) fn excludes(&self, other: &HeldLock) -> bool
        ensures { result ≡ excludes self.now other.now }
    {
        self.object == other.object && !(self.is_shared && other.is_shared)
    }
}
