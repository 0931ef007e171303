//! The failures of opening a run.
use crate::refusal::Refusal;
use std::alloc::AllocError;

/// Why a run was not opened.
#[derive(Clone, Copy, Debug, PartialEq, Eq)]
pub enum OpenFault {
    /// What it was given is refused.
    Refused(Refusal),
    /// Memory was refused.
    OutOfMemory,
}

impl From<AllocError> for OpenFault {
    ghost use Rattle.std.specs.Prelude.{◌≡◌};
    ghost use Rattle.runtime.specs.declared.open_fault.OpenFault.TheVariants.{OutOfMemory};

    ghost from_gives = { λ _ fault. fault ≡ OutOfMemory };

    /// Out of memory.
    fn from(_error: AllocError) -> Self {
        OpenFault::OutOfMemory
    }
}
