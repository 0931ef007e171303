//! Whom a turn lets go.
ghost use Rattle.std.specs.Prelude.{◌≡◌, is_some, IsTrue};
ghost use Rattle.abi.specs.Calls.{lets_go};
ghost use Rattle.trace_events.specs.Waits.{release_by, release_of, value_of};

use crate::wait::Wait;
use abi::{CallKind, Reply};
use token::TurnStop;

/// Whom a turn lets go.
#[derive(Clone, Copy, Debug, PartialEq, Eq)]
pub enum Release {
    /// The thread that it makes.
    Made { thread: u32 },
    /// The first thread that waits for this.
    First { wait: Wait },
    /// All threads that wait for this.
    All { wait: Wait },
}

impl Release {
    /// Whom the turn of a thread lets go.
    #[tactic(auto, unfolding(crate::specs::Waits::release_of))]
    pub(crate) fn of(thread: u32, stop: TurnStop) -> Option<Self>
        ensures { result ≡ release_of thread stop }
    {
        match stop {
            TurnStop::Call {
                number,
                arguments,
                reply,
            } => Release::by(
                CallKind::from_number(number),
                thread,
                arguments[0],
                value(reply),
            ),
            TurnStop::Trap { .. } | TurnStop::Wake { .. } | TurnStop::Quantum { .. } => None,
        }
    }

    /// Whom a call with this value lets go.
    fn by(kind: Option<CallKind>, thread: u32, argument: u32, value: Option<u32>) -> Option<Self>
        ensures release { result ≡ release_by kind thread argument value }
        ensures table { IsTrue (is_some result) → IsTrue (lets_go kind) }
    {
        match kind {
            Some(CallKind::Create) => match value {
                Some(thread) => Some(Release::Made { thread }),
                None => None,
            },
            Some(CallKind::ThreadExit) => Some(Release::All {
                wait: Wait::Join { thread },
            }),
            Some(CallKind::Signal) => Some(Release::First {
                wait: Wait::Condition {
                    condition: argument,
                },
            }),
            Some(CallKind::Broadcast) => Some(Release::All {
                wait: Wait::Condition {
                    condition: argument,
                },
            }),
            Some(CallKind::Barrier) => match value {
                Some(_) => Some(Release::All {
                    wait: Wait::Barrier { barrier: argument },
                }),
                None => None,
            },
            Some(CallKind::Exit)
            | Some(CallKind::Join)
            | Some(CallKind::Lock)
            | Some(CallKind::Unlock)
            | Some(CallKind::Wait)
            | Some(CallKind::Write)
            | Some(CallKind::Read)
            | Some(CallKind::Memory)
            | Some(CallKind::Sync)
            | Some(CallKind::Release)
            | None => None,
        }
    }
}

/// The value of a completed call.
fn value(reply: Reply) -> Option<u32>
    ensures { result ≡ value_of reply }
{
    match reply {
        Reply::Completed { value, .. } => value,
        Reply::Waits | Reply::Ends => None,
    }
}
