//! What is known of each thread of a run.
ghost use Rattle.std.specs.Prelude.{◌≡◌, ℕ, ◌+◌, ◌==◌, if◌then◌else◌, OnOk, Some, length, max};
ghost use Rattle.trace_events.specs.Recording.{state_at};
ghost use Rattle.trace_events.specs.Threads.{above, is_among, state_after, state_due};

use crate::sum::sum;
use crate::thread_state::{BLANK, ThreadState};
use crate::timed_turn::TimedTurn;
use std::alloc::AllocError;
use token::TurnFault;

/// What is known of a thread.
pub(crate) fn thread_at(threads: &[ThreadState], thread: u32) -> ThreadState
    ensures { result ≡ state_at threads.now thread }
{
    match threads.get(thread as usize) {
        Some(state) => *state,
        None => BLANK,
    }
}

/// Replaces what is known of a thread. There may be more threads then.
fn set_thread(
    threads: &mut Vec<ThreadState>,
    thread: u32,
    state: ThreadState,
) -> Result<(), AllocError>
    ensures set { OnOk result ((other : ℕ) →
        state_at threads.new.items other ≡ (if other == thread then state else state_at threads.old.items other)) }
    ensures grown { OnOk result (length threads.new.items ≡ max (length threads.old.items) (thread + 1)) }
{
    let place = thread as usize;
    if threads.len() <= place {
        threads.resize(place + 1, BLANK)?;
    }
    threads[place] = state;
    Ok(())
}

/// Takes note of a turn that lets some threads go.
pub(crate) fn note_turn(
    threads: &mut Vec<ThreadState>,
    freed: &[u32],
    timed: TimedTurn,
) -> Result<(), TurnFault>
    ensures noted { OnOk result ((other : ℕ) →
        state_at threads.new.items other ≡ state_after freed.now timed other (state_at threads.old.items other)) }
    ensures grown { OnOk result (length threads.new.items ≡ max (above (length threads.old.items) freed.now) (timed.turn.thread + 1)) }
{
    note_due(threads, freed, timed)?;
    let turn = timed.turn;
    let state = thread_at(threads, turn.thread);
    let wait = timed
        .time
        .saturating_sub(timed.begin)
        .saturating_sub(turn.ran);
    let state = ThreadState {
        last: Some(timed),
        due: None,
        instructions: sum(state.instructions, turn.ran)?,
        token: sum(state.token, wait)?,
    };
    set_thread(threads, turn.thread, state)?;
    Ok(())
}

/// Notes the turn that lets some threads go.
fn note_due(
    threads: &mut Vec<ThreadState>,
    freed: &[u32],
    cause: TimedTurn,
) -> Result<(), AllocError>
    ensures noted { OnOk result ((other : ℕ) →
        state_at threads.new.items other ≡ state_due (is_among other freed.now) cause (state_at threads.old.items other)) }
    ensures grown { OnOk result (length threads.new.items ≡ above (length threads.old.items) freed.now) }
{
    for thread in freed {
        let state = ThreadState {
            due: Some(cause),
            ..thread_at(threads, *thread)
        };
        set_thread(threads, *thread, state)?;
    }
    Ok(())
}
