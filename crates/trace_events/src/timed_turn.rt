//! A turn with its times. Plain data.
ghost use Rattle.std.specs.Prelude.{◌≡◌};
ghost use Rattle.trace_events.specs.Ending.{phase_by};
ghost use Rattle.trace_events.specs.Times as times;

use token::{Turn, TurnStop};

/// A turn with its times, in instructions.
#[derive(Clone, Copy, Debug, PartialEq, Eq)]
pub struct TimedTurn {
    /// Its place in token order, from 1.
    pub number: u64,
    /// Its record.
    pub turn: Turn,
    /// How many pages have a byte that it changed.
    pub pages: u64,
    /// When its segment began, or when the turn was if it has none.
    pub begin: u64,
    /// When it was.
    pub time: u64,
}

/// Whether a turn that stopped so is that of a woken thread.
pub(crate) fn is_wake(stop: TurnStop) -> bool
    ensures { result ≡ times.is_wake stop }
{
    match stop {
        TurnStop::Wake { .. } => true,
        TurnStop::Call { .. } | TurnStop::Trap { .. } | TurnStop::Quantum { .. } => false,
    }
}

/// The number of the last turn, 0 if there is none.
pub(crate) fn number_of(last: Option<TimedTurn>) -> u64
    ensures { result ≡ times.number_by last }
{
    match last {
        Some(last) => last.number,
        None => 0,
    }
}

/// The time of the last turn, 0 if there is none.
pub(crate) fn time_of(last: Option<TimedTurn>) -> u64
    ensures { result ≡ times.time_by last }
{
    match last {
        Some(last) => last.time,
        None => 0,
    }
}

/// The phase of the last turn, 0 if there is none.
pub(crate) fn phase_of(last: Option<TimedTurn>) -> u64
    ensures { result ≡ phase_by last }
{
    match last {
        Some(last) => last.turn.phase,
        None => 0,
    }
}
