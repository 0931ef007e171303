//! The failure that a recorder's fault is, by the target that it writes to.
ghost use Rattle.std.specs.Prelude.{◌≡◌};

use command_requests::{Failure, Target};
use token::TurnFault;

/// The failure that a fault of a recorder is which writes to this target.
pub(crate) fn failure_of_turn<'a>(target: Target<'a>, fault: TurnFault) -> Failure<'a>
    ensures failed { fault ≡ TurnFault.WriteFailed → result ≡ Failure.CannotWrite target.entry }
    ensures memory { fault ≡ TurnFault.OutOfMemory → result ≡ Failure.OutOfMemory }
{
    match fault {
        TurnFault::WriteFailed => Failure::CannotWrite(target),
        TurnFault::OutOfMemory => Failure::OutOfMemory,
    }
}
