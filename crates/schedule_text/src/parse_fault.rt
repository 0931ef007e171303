//! Why a schedule's text is refused: a line that is no event, or out of memory.
use std::alloc::AllocError;
use thiserror::Error;

/// Why a text isn't read.
#[derive(Clone, Copy, Debug, PartialEq, Eq, Error)]
pub enum ParseFault {
    /// The line of this number, from 1, is no event.
    #[error("schedule line {line}: not an event")]
    NotAnEvent {
        /// The number of the first such line.
        line: u64,
    },
    /// Memory was refused.
    #[error("out of memory")]
    OutOfMemory,
}

impl From<AllocError> for ParseFault {
    ghost use Rattle.std.specs.Prelude.{◌≡◌};
    ghost use Rattle.schedule_text.specs.declared.parse_fault.ParseFault.TheVariants.{OutOfMemory};

    ghost from_gives = { λ _ fault. fault ≡ OutOfMemory };

    /// Out of memory.
    fn from(_error: AllocError) -> Self {
        ParseFault::OutOfMemory
    }
}
