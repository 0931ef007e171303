//! The actions of `vCont`.
ghost use Rattle.std.specs.Prelude.{List, IfOk, MatchOption};
ghost use Rattle.gdb_packets.specs.Actions.{AreActions, IsAction, IsMotion};

use crate::action::{Action, Motion, Scope};
use crate::numbers::{number, split_at_byte, two_numbers};
use crate::thread_id::ThreadId;
use std::alloc::{AllocError, Global};

/// The actions of a text `ACTION[:THREAD][;ACTION[:THREAD]]..`, none if one of them is no action.
pub fn actions_of(alloc: Global, text: &[u8]) -> Result<Option<Vec<Action>>, AllocError>
    ensures { IfOk result (λ actions. MatchOption actions
        ((others : List Action) → ¬ AreActions text.now others) (λ actions. AreActions text.now actions.items)) }
{
    let mut actions = Vec::new(alloc);
    let mut rest = text;
    while let Some((part, behind)) = split_at_byte(rest, b';') {
        let Some(action) = action_of(part) else {
            return Ok(None);
        };
        actions.push(action)?;
        rest = behind;
    }
    let Some(action) = action_of(rest) else {
        return Ok(None);
    };
    actions.push(action)?;
    Ok(Some(actions))
}

/// The action of a text.
fn action_of(text: &[u8]) -> Option<Action>
    ensures { MatchOption result ((action : Action) → ¬ IsAction text.now action) (IsAction text.now) }
{
    match split_at_byte(text, b':') {
        None => Some(Action {
            motion: motion_of(text)?,
            scope: Scope::Others,
        }),
        Some((motion, thread)) => Some(Action {
            motion: motion_of(motion)?,
            scope: Scope::Named(ThreadId::of_text(thread)?),
        }),
    }
}

/// How far a thread goes, by a text. Signals are the program's, and it has none.
fn motion_of(text: &[u8]) -> Option<Motion>
    ensures { MatchOption result ((motion : Motion) → ¬ IsMotion text.now motion) (IsMotion text.now) }
{
    match text {
        b"c" => Some(Motion::Continue),
        b"s" => Some(Motion::Step),
        [b'C', signal @ ..] => number(signal).map(|_| Motion::Continue),
        [b'S', signal @ ..] => number(signal).map(|_| Motion::Step),
        [b'r', range @ ..] => two_numbers(range).map(|(start, end)| Motion::Range { start, end }),
        _ => None,
    }
}
