//! Why an event is refused, with numbers and names.
use std::alloc::AllocError;
use thiserror::Error;
use token::TurnFault;

/// Why an event is refused. The run's end is looked at first, then the worker, then the event.
#[derive(Clone, Copy, Debug, PartialEq, Eq, Error)]
pub enum EventFault {
    /// There is no worker of this number.
    #[error("no worker")]
    NoWorker,
    /// The event isn't enabled.
    #[error("not enabled")]
    NotEnabled,
    /// The run has ended.
    #[error("ended")]
    Ended,
    /// Memory was refused.
    #[error("out of memory")]
    OutOfMemory,
}

impl EventFault {
    ghost use Rattle.std.specs.Prelude.{◌≡◌};
    ghost use Rattle.schedule_core.specs.Faults.{number_of, name_of};

    /// Its number, 1 to 4.
    pub fn number(self) -> u8
        ensures { result ≡ number_of self }
    {
        match self {
            EventFault::NoWorker => 1,
            EventFault::NotEnabled => 2,
            EventFault::Ended => 3,
            EventFault::OutOfMemory => 4,
        }
    }

    /// Its name.
    pub fn name(self) -> &'static str
        ensures { result.now ≡ name_of self }
    {
        match self {
            EventFault::NoWorker => "NoWorker",
            EventFault::NotEnabled => "NotEnabled",
            EventFault::Ended => "Ended",
            EventFault::OutOfMemory => "OutOfMemory",
        }
    }
}

impl From<AllocError> for EventFault {
    ghost use Rattle.std.specs.Prelude.{◌≡◌};
    ghost use Rattle.schedule_core.specs.declared.event_fault.EventFault.TheVariants.{OutOfMemory};

    ghost from_gives = { λ _ fault. fault ≡ OutOfMemory };

    /// Out of memory.
    fn from(_error: AllocError) -> Self {
        EventFault::OutOfMemory
    }
}

impl From<TurnFault> for EventFault {
    ghost use Rattle.std.specs.Prelude.{◌≡◌};
    ghost use Rattle.schedule_core.specs.declared.event_fault.EventFault.TheVariants.{OutOfMemory};

    ghost from_gives = { λ _ fault. fault ≡ OutOfMemory };

    /// Out of memory: the turns are kept as a list, and nothing is written.
    fn from(_fault: TurnFault) -> Self {
        EventFault::OutOfMemory
    }
}
