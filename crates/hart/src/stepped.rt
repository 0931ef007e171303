//! What one instruction comes to: the next, a call, a trap, or out of memory.
use crate::trap::Trap;
use std::alloc::AllocError;

/// What one instruction came to.
#[derive(Debug, Drop)]
pub enum Stepped {
    /// It was executed.
    Next,
    /// It is an ecall. Nothing has changed, and pc stays on it.
    Ecall,
    /// It traps. Nothing has changed.
    Trap(Trap),
    /// It is a store for which the memory had to grow and couldn't. Nothing has changed.
    OutOfMemory(AllocError),
}
