//! Makes the schedule small by which a run fails.
ghost use Rattle.std.specs.Prelude.{◌≡◌, true, IfOk};
ghost use Rattle.small_schedules.specs.Searches.{IsSmall};

use crate::measure::{Measure, until};
use crate::searching::{halve, shrink, shrink_last};
use crate::trial::Trial;
use shuffled_phases::Shuffle;
use std::alloc::AllocError;
use std::sync::Wait;
use std::thread::Threads;

/// A small schedule by which the run fails, made of one by which it does. If the program fails by its own choices, no phase is shuffled.
/// Else the last phase is made small, from the first one of which more than one thread may be in the list, then the first one. At last the
/// number of choices is.
pub(crate) fn small_of<R: Threads + Wait + Sync, T: Trial>(
    rt: &R,
    trial: &T,
    shuffle: Shuffle,
    from: u64,
) -> Result<Shuffle, AllocError>
    requires { T.tells trial.now shuffle true }
    ensures { IfOk result (IsSmall (T.tells trial.now) shuffle.number) }
{
    let unshuffled = until(shuffle, 0);
    if trial.fails(rt, unshuffled)? {
        let small = shrink(rt, trial, Measure::Choices, unshuffled, 1)?;
        return settle(rt, trial, small);
    }
    let ended = shrink_last(rt, trial, shuffle, from)?;
    let begun = shrink(rt, trial, Measure::Before, ended, 0)?;
    let small = shrink(rt, trial, Measure::Choices, begun, 1)?;
    settle(rt, trial, small)
}

/// A schedule by which the run fails, and by which it doesn't with one phase fewer at the end.
fn settle<R: Threads + Wait + Sync, T: Trial>(
    rt: &R,
    trial: &T,
    shuffle: Shuffle,
) -> Result<Shuffle, AllocError>
    requires { T.tells trial.now shuffle true }
    ensures { IfOk result (IsSmall (T.tells trial.now) shuffle.number) }
{
    if shuffle.last == 0 {
        return Ok(shuffle);
    }
    let shorter = until(shuffle, shuffle.last - 1);
    if !trial.fails(rt, shorter)? {
        return Ok(shuffle);
    }
    let unshuffled = until(shuffle, 0);
    if shorter.last == 0 || trial.fails(rt, unshuffled)? {
        return Ok(unshuffled);
    }
    let last = halve(rt, trial, Measure::Last, shuffle, 0, shorter.last)?;
    Ok(until(shuffle, last))
}
