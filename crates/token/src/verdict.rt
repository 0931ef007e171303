//! Whether a run goes on after a turn, and who keeps the token.
ghost use Rattle.std.specs.Prelude.{◌≡◌, ◌<◌, length, slice_get, unwrap_or};
ghost use Rattle.std.specs.List.{list_all};
ghost use Rattle.call_table.specs.Shared.{state_of};
ghost use Rattle.thread_table.specs.Thread.{blank};
ghost use Rattle.token.specs.Outcome as outcome;
ghost use Rattle.token.specs.Point as point;

use crate::outcome::RunOutcome;
use crate::turn::TurnStop;
use abi::CallKind;
use call_table::SharedState;
use thread_table::{Status, Thread, Threads};

/// The outcome of a turn that ends the run by itself: a trap or the call exit.
pub(crate) fn outcome_of_stop(thread: u32, stop: &TurnStop) -> Option<RunOutcome>
    ensures { result ≡ outcome.outcome_of_stop thread stop.now }
{
    match *stop {
        TurnStop::Trap { pc, trap } => Some(RunOutcome::Trap { thread, pc, trap }),
        TurnStop::Call {
            number,
            arguments,
            ..
        } if CallKind::ends_run(number) => Some(RunOutcome::Exit(arguments[0])),
        TurnStop::Call { .. } | TurnStop::Quantum { .. } | TurnStop::Wake { .. } => None,
    }
}

/// The thread of a turn with this outcome, if it keeps the token: the run goes on, and the thread is ready and holds a mutex.
#[tactic(auto, unfolding(crate::specs::Point::keeper_after))]
pub(crate) fn keeper_after(
    shared: &SharedState,
    thread: u32,
    outcome: Option<RunOutcome>,
) -> Option<u32>
    requires { thread < length (state_of shared.now).threads }
    ensures { result ≡ point.keeper_after (state_of shared.now) thread outcome }
{
    let ready = shared.threads().get(thread).status.is_ready();
    if outcome.is_none() && ready && shared.holds(thread) {
        Some(thread)
    } else {
        None
    }
}

/// The outcome where nobody has a turn: finished where all threads are done, else a deadlock.
#[tactic(auto, unfolding(call_table::specs::Shared::state_of))]
pub(crate) fn quiet_outcome(shared: &SharedState) -> RunOutcome
    ensures { result ≡ outcome.quiet_outcome (state_of shared.now) }
{
    if are_done(shared.threads()) {
        RunOutcome::Finished(first_value(shared.threads()))
    } else {
        RunOutcome::Deadlock
    }
}

/// Whether all threads are done.
fn are_done(threads: &Threads) -> bool
    ensures { result ≡ list_all outcome.is_done threads.now }
{
    for number in 0..threads.len() {
        if !is_done(threads.get(number as u32)) {
            return false;
        }
    }
    true
}

/// Whether a thread is done.
fn is_done(thread: &Thread) -> bool
    ensures { result ≡ outcome.is_done thread.now }
{
    matches!(thread.status, Status::Done(_))
}

/// The value that thread 0 is done with.
fn first_value(threads: &Threads) -> u32
    ensures { result ≡ outcome.value_of (unwrap_or (slice_get threads.now 0) blank).status }
{
    if threads.is_empty() {
        return 0;
    }
    match threads.get(0).status {
        Status::Done(value) => value,
        _ => 0,
    }
}
