//! The failures of a replay.
use command_requests::Failure;
use schedule_core::{EventFault, RefusedEvent};
use std::alloc::AllocError;
use thiserror::Error;

/// Why a replay stopped before its schedule's end, or never began. Its text is the line for the user.
#[derive(Clone, Copy, Debug, Error)]
pub(crate) enum ReplayFailure<'a> {
    /// One that a run can have too.
    #[error("{0}")]
    Plain(Failure<'a>),
    /// A line of the schedule is no event.
    #[error("schedule line {line}: not an event")]
    NotAnEvent {
        /// The number of the first such line, from 1.
        line: u64,
    },
    /// An event of the schedule is refused.
    #[error("schedule line {line}: refused {} {}", .fault.number(), .fault.name())]
    Refused {
        /// The number of its line, from 1.
        line: u64,
        /// Why it is refused.
        fault: EventFault,
    },
}

impl ReplayFailure<'_> {
    ghost use Rattle.std.specs.Prelude.{◌≡◌, ◌-◌, ◌^◌, ◌<◌};
    ghost use Rattle.command_line.specs.Status.{failure_at, replay_failure_status};

    /// The failure that a refused event is, by its place in the list of events.
    pub(crate) fn of_refused(refused: RefusedEvent) -> Self
        requires { refused.place < 2 ^ 64 - 1 }
        ensures { result ≡ failure_at refused.place refused.fault }
    {
        let line = refused.place as u64 + 1;
        match refused.fault {
            EventFault::OutOfMemory => ReplayFailure::Plain(Failure::OutOfMemory),
            fault => ReplayFailure::Refused { line, fault },
        }
    }

    /// The status that the program ends with: 124 for a schedule that is no text of events or has an event that is refused,
    /// and else that of the failure of a run.
    pub(crate) fn status(&self) -> u8
        ensures { result ≡ replay_failure_status self.now }
    {
        match self {
            ReplayFailure::Plain(failure) => failure.status(),
            ReplayFailure::NotAnEvent { .. } | ReplayFailure::Refused { .. } => 124,
        }
    }
}

impl<'a> From<Failure<'a>> for ReplayFailure<'a> {
    ghost use Rattle.std.specs.Prelude.{◌≡◌};
    ghost use Rattle.command_line.specs.declared.replay_failure.ReplayFailure.TheVariants.{Plain};

    ghost from_gives = { λ failure given. given ≡ Plain failure };

    fn from(failure: Failure<'a>) -> Self {
        ReplayFailure::Plain(failure)
    }
}

impl From<AllocError> for ReplayFailure<'_> {
    ghost use Rattle.std.specs.Prelude.{◌≡◌};
    ghost use Rattle.command_requests.specs.declared.failure.Failure.TheVariants.{OutOfMemory};
    ghost use Rattle.command_line.specs.declared.replay_failure.ReplayFailure.TheVariants.{Plain};

    ghost from_gives = { λ _ given. given ≡ Plain OutOfMemory };

    fn from(_error: AllocError) -> Self {
        ReplayFailure::Plain(Failure::OutOfMemory)
    }
}
