//! A thread takes a lock while it holds others.
ghost use Rattle.std.specs.Prelude.{◌≡◌};
ghost use Rattle.std.specs.List.{list_any};
ghost use Rattle.races.specs.Holding.{excludes};
ghost use Rattle.races.specs.LockOrder.{are_alike, are_crossed, fault_of, have_gate, holds, told};

use crate::held_lock::HeldLock;
use crate::library_call::LibraryCall;
use crate::order_fault::OrderFault;

/// A thread takes a lock, by a call that would have waited for it, while it holds others.
#[derive(Drop)]
pub(crate) struct Acquisition {
    /// The call.
    pub(crate) call: LibraryCall,
    /// The lock that it takes.
    pub(crate) object: u32,
    /// The locks that the thread holds.
    pub(crate) held: Vec<HeldLock>,
}

impl Acquisition {
    /// Whether the same thread takes the same lock while it holds the same.
    pub(crate) fn is_alike(&self, other: &Acquisition) -> bool
        ensures { result ≡ are_alike (told self.now) (told other.now) }
    {
        self.call.thread == other.call.thread
            && self.object == other.object
            && self.held.as_slice() == other.held.as_slice()
    }

    /// Whether two threads take two locks in both orders, and nothing keeps them from doing so at once.
    pub(crate) fn is_crossed(&self, other: &Acquisition) -> bool
        ensures { result ≡ are_crossed (told self.now) (told other.now) }
    {
        holds(&other.held, self.object)
            && self.call.thread != other.call.thread
            && holds(&self.held, other.object)
            && !have_gate(&self.held, &other.held)
    }

    /// What is told of it and of a later one.
    pub(crate) fn fault_with(&self, other: &Acquisition) -> OrderFault
        ensures { result ≡ fault_of (told self.now) (told other.now) }
    {
        OrderFault {
            held: other.object,
            taken: self.object,
            first: self.call,
            second: other.call,
        }
    }
}

/// Whether an object is among the locks.
pub(crate) fn holds(held: &[HeldLock], object: u32) -> bool
    ensures { result ≡ holds held.now object }
{
    held.iter().any(|lock| lock.is_of(object))
}

/// Whether two threads can't hold these locks at once.
fn have_gate(held: &[HeldLock], others: &[HeldLock]) -> bool
    ensures { result ≡ have_gate held.now others.now }
{
    held.iter().any(|lock| is_gate(lock, others))
}

/// Whether a lock excludes one of some others.
fn is_gate(lock: &HeldLock, others: &[HeldLock]) -> bool
    ensures { result ≡ list_any (excludes lock.now) others.now }
{
    others.iter().any(|other| lock.excludes(other))
}
