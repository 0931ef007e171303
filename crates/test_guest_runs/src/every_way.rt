//! Runs in each way of the library.

use crate::case::Case;
use crate::walked::Tally;
use crate::{phases, turn_by_turn, walked, whole_runs};
use anyhow::Result;
use std::alloc::Global;
use std::sync::Wait;
use std::thread::Threads;
use test_guest_rows::Differences;

/// In how many ways long runs are made.
#[derive(Clone, Copy)]
pub enum Effort {
    /// In all ways, as others.
    Whole,
    /// By the run time, with four workers.
    Brief,
}

impl Effort {
    /// Whether a run is made in all ways.
    pub fn is_whole(self, case: Case<'_>) -> bool {
        matches!(self, Effort::Whole) || !case.run.is_long
    }
}

/// Compares a run in each way, or in one if this effort has it made once. One with a large output is neither walked
/// through nor made phase by phase.
pub fn compare_run(
    rt: &(impl Threads + Wait + Sync),
    alloc: Global,
    case: Case<'_>,
    effort: Effort,
    tally: &mut Tally,
    found: &mut Differences,
) -> Result<()> {
    if !effort.is_whole(case) {
        return whole_runs::compare_once(rt, alloc, case, found);
    }
    compare_call(rt, alloc, case, found)?;
    if case.run.output.is_large() {
        return Ok(());
    }
    phases::compare(rt, alloc, case, found)?;
    walked::compare(alloc, case, tally, found)
}

/// Compares the run of a single call, turn by turn and by the run time.
pub fn compare_call(
    rt: &(impl Threads + Wait + Sync),
    alloc: Global,
    case: Case<'_>,
    found: &mut Differences,
) -> Result<()> {
    turn_by_turn::compare(alloc, case, found)?;
    whole_runs::compare(rt, alloc, case, found)
}
