//! Searches for an amount of a schedule by which the run still fails.
ghost use Rattle.std.specs.Prelude.{◌≡◌, ◌<◌, ◌≤◌, ◌+◌, true, IfOk, IfSome};
ghost use Rattle.small_schedules.specs.Measures as spec;
ghost use Rattle.small_schedules.specs.Searches.{IsEdge};

use crate::measure::{Measure, until};
use crate::trial::Trial;
use shuffled_phases::Shuffle;
use std::alloc::AllocError;
use std::sync::Wait;
use std::thread::Threads;

/// How many last phases are tried one after another.
const TRIED: u64 = 64;

/// An amount by which the run fails, between one that is known to be too small and one by which it is known to fail. Half of what is
/// between them is left out at each step.
pub(crate) fn halve<R: Threads + Wait + Sync, T: Trial>(
    rt: &R,
    trial: &T,
    measure: Measure,
    shuffle: Shuffle,
    least: u64,
    most: u64,
) -> Result<u64, AllocError>
    requires apart { least < most }
    requires fails { T.tells trial.now (spec.set measure shuffle most) true }
    ensures { IfOk result (IsEdge (T.tells trial.now) measure shuffle least most) }
{
    let mut low = least;
    let mut high = most;
    while high - low > 1 {
        let middle = low + (high - low) / 2;
        if trial.fails(rt, measure.set(shuffle, middle))? {
            high = middle;
        } else {
            low = middle;
        }
    }
    Ok(high)
}

/// The first amount above one by which the run fails, of those that are 1, 2, 4 and so on above it, or else none.
fn double<R: Threads + Wait + Sync, T: Trial>(
    rt: &R,
    trial: &T,
    measure: Measure,
    shuffle: Shuffle,
    least: u64,
) -> Result<Option<u64>, AllocError>
    ensures above { IfOk result (λ found. IfSome found (λ amount. least < amount)) }
    ensures fails { IfOk result (λ found. IfSome found (λ amount. T.tells trial.now (spec.set measure shuffle amount) true)) }
{
    for step in 0..64u32 {
        let amount = least.saturating_add(1 << step);
        if amount > least && trial.fails(rt, measure.set(shuffle, amount))? {
            return Ok(Some(amount));
        }
    }
    Ok(None)
}

/// The schedule with an amount above the least one by which the run still fails, or as it is if none was found.
pub(crate) fn shrink_above<R: Threads + Wait + Sync, T: Trial>(
    rt: &R,
    trial: &T,
    measure: Measure,
    shuffle: Shuffle,
    least: u64,
) -> Result<Shuffle, AllocError>
    requires { T.tells trial.now shuffle true }
    ensures fails { IfOk result (λ small. T.tells trial.now small true) }
    ensures number { IfOk result (λ small. small.number ≡ shuffle.number) }
{
    match double(rt, trial, measure, shuffle, least)? {
        Some(most) => {
            let amount = halve(rt, trial, measure, shuffle, least, most)?;
            Ok(measure.set(shuffle, amount))
        }
        None => Ok(shuffle),
    }
}

/// The schedule with the least amount, or else with one above it, by which the run still fails, or as it is if none was found.
pub(crate) fn shrink<R: Threads + Wait + Sync, T: Trial>(
    rt: &R,
    trial: &T,
    measure: Measure,
    shuffle: Shuffle,
    least: u64,
) -> Result<Shuffle, AllocError>
    requires { T.tells trial.now shuffle true }
    ensures fails { IfOk result (λ small. T.tells trial.now small true) }
    ensures number { IfOk result (λ small. small.number ≡ shuffle.number) }
{
    let small = measure.set(shuffle, least);
    if trial.fails(rt, small)? {
        return Ok(small);
    }
    shrink_above(rt, trial, measure, shuffle, least)
}

/// The schedule with a smaller last phase by which the run still fails: with the first one of 64 from a phase on, or else with a later one.
pub(crate) fn shrink_last<R: Threads + Wait + Sync, T: Trial>(
    rt: &R,
    trial: &T,
    shuffle: Shuffle,
    from: u64,
) -> Result<Shuffle, AllocError>
    requires { T.tells trial.now shuffle true }
    ensures fails { IfOk result (λ small. T.tells trial.now small true) }
    ensures number { IfOk result (λ small. small.number ≡ shuffle.number) }
{
    for step in 0..TRIED {
        let small = until(shuffle, from.saturating_add(step));
        if trial.fails(rt, small)? {
            return Ok(small);
        }
    }
    shrink_above(
        rt,
        trial,
        Measure::Last,
        shuffle,
        from.saturating_add(TRIED - 1),
    )
}
