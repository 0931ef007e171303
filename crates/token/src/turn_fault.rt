//! Why a turn was not done: out of memory, or a recorder's write failed.
use std::alloc::AllocError;

/// Why a turn wasn't done.
#[derive(Clone, Copy, Debug, PartialEq, Eq)]
pub enum TurnFault {
    /// Memory was refused.
    OutOfMemory,
    /// The recorder couldn't write.
    WriteFailed,
}

impl From<AllocError> for TurnFault {
    ghost use Rattle.std.specs.Prelude.{◌≡◌};
    ghost use Rattle.token.specs.declared.turn_fault.TurnFault.TheVariants.{OutOfMemory};

    ghost from_gives = { λ _ fault. fault ≡ OutOfMemory };

    /// Out of memory.
    fn from(_error: AllocError) -> Self {
        TurnFault::OutOfMemory
    }
}
