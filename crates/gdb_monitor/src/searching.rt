//! Finds positions: the run goes there and comes back.
ghost use Rattle.std.specs.Prelude.{◌≡◌, IfOk, OnOk};
ghost use Rattle.timeline.specs.Line.{SameRun, start_of};
ghost use Rattle.gdb_monitor.specs.Searching.{HasStep, Stays, same_or_none, step_named};

use crate::reading::decimal;
use gdb_packets::{bytes_of_digits, split_at_byte};
use std::alloc::{AllocError, Global};
use timeline::Timeline;

/// How many steps the first leap to a turn has.
const LEAP: u64 = 0x10_0000;

/// This step, if the run has it. The run stands where it stood, unless memory is refused.
pub fn existing(timeline: &mut Timeline, step: u64) -> Result<Option<u64>, AllocError>
    ensures run { SameRun timeline.old timeline.new }
    ensures stays { OnOk result (Stays timeline.old timeline.new) }
    ensures found { IfOk result (HasStep (start_of timeline.old) step) }
{
    let here = timeline.step_number();
    timeline.seek(step, u64::MAX)?;
    let found = timeline.step_number();
    timeline.seek(here, u64::MAX)?;
    Ok(same_or_none(found, step))
}

/// A step, none if it isn't the one that was wanted.
fn same_or_none(found: u64, step: u64) -> Option<u64>
    ensures { result ≡ same_or_none found step }
{
    if found == step { Some(step) } else { None }
}

/// The step of a position, by its turn and how many instructions of the turn were executed, if the run has it. The run
/// stands where it stood, unless memory is refused.
pub fn step_of(timeline: &mut Timeline, turn: u64, count: u64) -> Result<Option<u64>, AllocError>
    ensures run { SameRun timeline.old timeline.new }
    ensures stays { OnOk result (Stays timeline.old timeline.new) }
{
    let here = timeline.step_number();
    let found = find_turn(timeline, turn, count)?;
    timeline.seek(here, u64::MAX)?;
    Ok(found)
}

/// The step of a position. The run is moved.
fn find_turn(timeline: &mut Timeline, turn: u64, count: u64) -> Result<Option<u64>, AllocError>
    ensures { SameRun timeline.old timeline.new }
{
    reach_turn(timeline, turn)?;
    if turn == 0 || timeline.turn() < turn {
        return Ok(None);
    }
    let first = first_step_of(timeline, turn)?;
    let step = first.saturating_add(count);
    timeline.seek(step, u64::MAX)?;
    if timeline.step_number() == step && timeline.turn() == turn {
        return Ok(Some(step));
    }
    Ok(None)
}

/// Goes forward until a turn was begun, in longer and longer leaps, or to the end.
fn reach_turn(timeline: &mut Timeline, turn: u64) -> Result<(), AllocError>
    ensures { SameRun timeline.old timeline.new }
{
    let mut leap = LEAP;
    for _ in 0..64 {
        if turn <= timeline.turn() {
            return Ok(());
        }
        let goal = timeline.step_number().saturating_add(leap);
        timeline.seek(goal, u64::MAX)?;
        leap = leap.saturating_mul(2);
    }
    Ok(())
}

/// The first step of a turn that was begun: it halves the steps among which it is.
fn first_step_of(timeline: &mut Timeline, turn: u64) -> Result<u64, AllocError>
    ensures { SameRun timeline.old timeline.new }
{
    let mut first = 0u64;
    let mut last = timeline.step_number();
    for _ in 0..64 {
        if last <= first {
            break;
        }
        let middle = first + (last - first) / 2;
        timeline.seek(middle, u64::MAX)?;
        if timeline.turn() < turn {
            first = middle + 1;
        } else {
            last = middle;
        }
    }
    Ok(first)
}

/// The step that the arguments of a restart name, in digits, and else the first.
pub fn step_named(alloc: Global, arguments: &[u8]) -> Result<u64, AllocError>
    ensures { IfOk result (λ step. step ≡ step_named arguments.now) }
{
    let Some((_, digits)) = split_at_byte(arguments, b';') else {
        return Ok(0);
    };
    match bytes_of_digits(alloc, digits)? {
        Some(text) => Ok(decimal(text.as_slice()).unwrap_or(0)),
        None => Ok(0),
    }
}
