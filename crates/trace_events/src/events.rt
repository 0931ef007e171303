//! The events of a turn, appended to a text.
ghost use Rattle.std.specs.Prelude.{◌≡◌, ◌++◌, OnOk};
ghost use Rattle.std.specs.String.{string_bytes};
ghost use Rattle.trace_events.specs.Events.{own_events};

use crate::event::{
    write_flow, write_idle, write_name, write_segment, write_token_wait, write_turn,
};
use crate::thread_state::ThreadState;
use crate::timed_turn::TimedTurn;
use token::TurnFault;

/// Appends the events of a turn of a thread of which this was known before it.
#[tactic(auto, unfolding(crate::specs::Events::own_events))]
pub(crate) fn write_events(
    text: &mut String,
    state: &ThreadState,
    timed: &TimedTurn,
) -> Result<(), TurnFault>
    ensures { OnOk result (string_bytes text.new ≡ string_bytes text.old ++ own_events state.now.last state.now.due timed.now) }
{
    let thread = u64::from(timed.turn.thread);
    if state.last.is_none() {
        write_name(text, timed.number, thread)?;
    }
    write_idle(text, state.last, thread, timed.begin)?;
    write_segment(text, timed)?;
    write_token_wait(text, timed)?;
    write_turn(text, timed)?;
    write_flow(text, state.last, state.due, timed)?;
    Ok(())
}
