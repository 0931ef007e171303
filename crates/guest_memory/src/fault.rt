//! The refusals of an access, as the machine sees them and as the host adds out of memory.
use std::alloc::AllocError;

/// Why a memory refuses an access.
#[derive(Clone, Copy, Debug, PartialEq, Eq)]
pub enum AccessFault {
    /// The address is no multiple of the access's width. This is looked at first.
    Misaligned,
    /// An accessed byte isn't mapped, or its page lacks the permission.
    Denied,
}

/// Why a store wasn't made. Nothing has changed then.
#[derive(Debug, Drop)]
pub enum StoreFault {
    /// The memory refuses the store.
    Refused(AccessFault),
    /// The store is permitted, and the memory had to grow for it and couldn't.
    OutOfMemory(AllocError),
}
