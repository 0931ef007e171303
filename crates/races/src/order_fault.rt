//! Two threads that take two locks in both orders.
ghost use Rattle.std.specs.Prelude.{◌≡◌};
ghost use Rattle.races.specs.LockOrder.{is_same_pair};

use crate::library_call::LibraryCall;

/// Two threads that take two locks in both orders: at another time each may wait for the other.
#[derive(Clone, Copy, Debug, PartialEq, Eq)]
pub struct OrderFault {
    /// The lock that the first thread holds, and the second one takes.
    pub held: u32,
    /// The lock that the first thread takes, and the second one holds.
    pub taken: u32,
    /// The call by which the first thread takes a lock, the earlier one.
    pub first: LibraryCall,
    /// The call by which the second thread takes a lock, the later one.
    pub second: LibraryCall,
}

impl OrderFault {
    /// Whether both are of the same two locks.
    pub(crate) fn is_same_pair(&self, other: &OrderFault) -> bool
        ensures { result ≡ is_same_pair self.now other.now }
    {
        (self.held == other.held && self.taken == other.taken)
            || (self.held == other.taken && self.taken == other.held)
    }
}
