//! What a thread waits for between two of its turns.
ghost use Rattle.std.specs.Prelude.{◌≡◌, ◌++◌, is_some, OnOk};
ghost use Rattle.abi.specs.Calls.{fate_of, may_wait};
ghost use Rattle.std.specs.String.{string_bytes};
ghost use Rattle.trace_events.specs.Events.{wait_text};
ghost use Rattle.trace_events.specs.Waits.{same_wait, wait_by, wait_of};

use abi::{CallKind, Reply};
use itoa::Buffer;
use std::alloc::AllocError;
use token::TurnStop;

/// What a thread waits for between two of its turns.
#[derive(Clone, Copy, Debug, PartialEq, Eq)]
pub enum Wait {
    /// A thread's end.
    Join { thread: u32 },
    /// A signal or broadcast at a condition variable.
    Condition { condition: u32 },
    /// A barrier, until as many threads as it counts have come.
    Barrier { barrier: u32 },
}

impl Wait {
    /// What the thread of a turn that stopped so waits for after it, if it waits.
    #[tactic(auto, unfolding(crate::specs::Waits::wait_of))]
    pub(crate) fn of(stop: TurnStop) -> Option<Self>
        ensures { result ≡ wait_of stop }
    {
        match stop {
            TurnStop::Call {
                number,
                arguments,
                reply: Reply::Waits,
            } => Wait::by(CallKind::from_number(number), arguments[0]),
            TurnStop::Call { .. }
            | TurnStop::Trap { .. }
            | TurnStop::Wake { .. }
            | TurnStop::Quantum { .. } => None,
        }
    }

    /// What a call that waits waits for.
    fn by(kind: Option<CallKind>, argument: u32) -> Option<Self>
        ensures wait { result ≡ wait_by kind argument }
        ensures table { is_some result ≡ may_wait (fate_of kind) }
    {
        match kind {
            Some(CallKind::Join) => Some(Wait::Join { thread: argument }),
            Some(CallKind::Wait) => Some(Wait::Condition {
                condition: argument,
            }),
            Some(CallKind::Barrier) => Some(Wait::Barrier { barrier: argument }),
            Some(CallKind::Exit)
            | Some(CallKind::ThreadExit)
            | Some(CallKind::Create)
            | Some(CallKind::Lock)
            | Some(CallKind::Unlock)
            | Some(CallKind::Signal)
            | Some(CallKind::Broadcast)
            | Some(CallKind::Write)
            | Some(CallKind::Read)
            | Some(CallKind::Memory)
            | Some(CallKind::Sync)
            | Some(CallKind::Release)
            | None => None,
        }
    }

    /// Whether another wait is for the same.
    pub(crate) fn is(self, other: Wait) -> bool
        ensures { result ≡ same_wait self other }
    {
        match (self, other) {
            (Wait::Join { thread }, Wait::Join { thread: other }) => thread == other,
            (Wait::Condition { condition }, Wait::Condition { condition: other }) => {
                condition == other
            }
            (Wait::Barrier { barrier }, Wait::Barrier { barrier: other }) => barrier == other,
            _ => false,
        }
    }

    /// Appends what is waited for.
    #[tactic(auto, unfolding(crate::specs::Events::wait_text))]
    pub(crate) fn write(self, text: &mut String) -> Result<(), AllocError>
        ensures { OnOk result (string_bytes text.new ≡ string_bytes text.old ++ wait_text self) }
    {
        match self {
            Wait::Join { thread } => {
                text.push_str("join ")?;
                text.push_str(Buffer::new().format(thread))
            }
            Wait::Condition { condition } => {
                text.push_str("wait ")?;
                text.push_str(Buffer::new().format(condition))
            }
            Wait::Barrier { barrier } => {
                text.push_str("barrier ")?;
                text.push_str(Buffer::new().format(barrier))
            }
        }
    }
}
