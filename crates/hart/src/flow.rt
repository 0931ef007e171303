//! How an instruction goes on: at the next one or at an address, into a call or a trap, or out of memory.
ghost use Rattle.std.specs.Prelude.{◌≡◌};

use crate::cause::Cause;
use crate::trap::Trap;
use std::alloc::AllocError;

/// How a hart goes on after an instruction.
#[derive(Debug, Drop)]
pub(crate) enum Flow {
    /// The instruction was executed, and the next one is the one after it.
    Next,
    /// The instruction was executed, and the next one is at this address, a multiple of 4.
    Jumps(u32),
    /// It is an ecall. Nothing has changed.
    Ecall,
    /// It traps. Nothing has changed.
    Trap(Trap),
    /// It is a store for which the memory had to grow and couldn't. Nothing has changed.
    OutOfMemory(AllocError),
}

/// A trap of this cause and value.
#[inline(always)]
pub(crate) fn trapped(cause: Cause, value: u32) -> Flow
    ensures { result ≡ Flow.Trap (record { cause = cause; value = value }) }
{
    Flow::Trap(Trap { cause, value })
}
