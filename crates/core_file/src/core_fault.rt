//! Why a core file was not written.
ghost use Rattle.std.specs.Prelude.{◌≡◌};

use std::alloc::AllocError;
use thiserror::Error;

/// Why a core file was not written, or not whole.
#[derive(Clone, Copy, Debug, PartialEq, Eq, Error)]
pub enum CoreFault {
    /// The allocator refused memory.
    #[error("out of memory")]
    OutOfMemory,
    /// The writer failed.
    #[error("a write failed")]
    WriteFailed,
    /// The file would need more than 65,533 segments, or 4 GiB.
    #[error("too large")]
    TooLarge,
}

impl From<AllocError> for CoreFault {
    ghost use Rattle.core_file.specs.declared.core_fault.CoreFault.TheVariants.{OutOfMemory};

    ghost from_gives = { λ _ fault. fault ≡ OutOfMemory };

    fn from(_error: AllocError) -> Self {
        CoreFault::OutOfMemory
    }
}
