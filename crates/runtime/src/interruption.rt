//! What stops a run that began.
use std::alloc::AllocError;
use token::TurnFault;

/// Why a run that began has no end.
#[derive(Clone, Copy, Debug, PartialEq, Eq)]
pub enum Interruption {
    /// Memory was refused.
    OutOfMemory,
    /// The sink of the output failed.
    WriteFailed,
    /// The recorder couldn't write.
    RecordFailed,
}

impl From<AllocError> for Interruption {
    ghost use Rattle.std.specs.Prelude.{◌≡◌};
    ghost use Rattle.runtime.specs.declared.interruption.Interruption.TheVariants.{OutOfMemory};

    ghost from_gives = { λ _ interruption. interruption ≡ OutOfMemory };

    /// Out of memory.
    fn from(_error: AllocError) -> Self {
        Interruption::OutOfMemory
    }
}

impl From<TurnFault> for Interruption {
    ghost use Rattle.std.specs.Prelude.{◌≡◌};
    ghost use Rattle.runtime.specs.Faults.{interruption_of};

    ghost from_gives = { λ fault interruption. interruption ≡ interruption_of fault };

    /// Out of memory, or a failure of the recorder.
    fn from(fault: TurnFault) -> Self {
        match fault {
            TurnFault::OutOfMemory => Interruption::OutOfMemory,
            TurnFault::WriteFailed => Interruption::RecordFailed,
        }
    }
}
