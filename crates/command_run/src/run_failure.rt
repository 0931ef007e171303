//! What the faults of a run are to the user.
ghost use Rattle.std.specs.Prelude.{◌≡◌, is_some, true};
ghost use Rattle.command_run.specs.Failure as spec;
ghost use Rattle.command_run.specs.Failure.{IsStoppedBy};

use command_requests::{Destination, Failure, Target};
use runtime::{Interruption, OpenFault, Refusal};

/// The failure that a refusal is.
pub(crate) fn failure_of_refusal<'a>(refusal: Refusal) -> Failure<'a>
    ensures { result ≡ spec.failure_of_refusal refusal }
{
    match refusal {
        Refusal::BadConfig => Failure::OutsideRange,
        Refusal::InputTooLarge => Failure::InputTooLarge,
        Refusal::Elf(fault) => Failure::ElfRefused(fault),
    }
}

/// The failure that a fault is for which no run was opened.
pub fn failure_of_fault<'a>(fault: OpenFault) -> Failure<'a>
    ensures { result ≡ spec.failure_of_fault fault }
{
    match fault {
        OpenFault::Refused(refusal) => failure_of_refusal(refusal),
        OpenFault::OutOfMemory => Failure::OutOfMemory,
    }
}

/// The failure of a run that was stopped so, and whose recorder writes to this destination. One that writes nowhere can't fail.
pub(crate) fn failure_of_interruption<'a>(
    interruption: Interruption,
    destination: Option<Destination<'a>>,
) -> Failure<'a>
    requires { interruption ≡ Interruption.RecordFailed → is_some destination ≡ true }
    ensures { IsStoppedBy destination.entry interruption result }
{
    match interruption {
        Interruption::OutOfMemory => Failure::OutOfMemory,
        Interruption::WriteFailed => Failure::CannotWrite(Target::StandardOutput),
        Interruption::RecordFailed => match destination {
            Some(destination) => Failure::CannotWrite(destination.target()),
            None => unreachable!(),
        },
    }
}
