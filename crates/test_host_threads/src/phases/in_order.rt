//! Turns of a phase, taken in order by a taker that begins late or stops early.

ghost use Rattle.std.specs.Prelude.{◌<◌, ◌≤◌, length};
ghost use Rattle.claim_table.specs.Logs.{most_jobs, most_seats};

use crate::phases::fixtures::{base_of, job_at};
use crate::phases::gates::{Counting, Flag, Holding};
use crate::phases::shown::show;
use crate::phases::taking::Taking;
use anyhow::Result;
use data_guest_programs::{BAD_WRITE, ENDLESS};
use paged_memory::Snapshot;
use parallel_phase::{Job, TakerStage, run_in_order};
use phase_jobs::Gate;
use std::alloc::Global;
use std::rt::Clock;
use std::sync::Wait;
use std::thread::Threads;

/// How often a phase is begun whose taker stops early.
const TIMES: u32 = 100;

/// Prints the rows of turns that are taken in order.
pub fn show_in_order<R: Clock + Print + Threads + Wait + Sync>(
    rt: &R,
    alloc: Global,
) -> Result<()> {
    let base = base_of(alloc, &BAD_WRITE)?;
    show_all_turns(rt, alloc, &base)?;
    let is_so = a_taker_stops_beside_an_endless_job(rt, alloc)?;
    show(
        rt,
        "a taker that stops early returns beside an endless job",
        is_so,
    )
}

/// Prints the rows of takers that take all turns.
fn show_all_turns<R: Clock + Print + Threads + Wait + Sync>(
    rt: &R,
    alloc: Global,
    base: &Snapshot,
) -> Result<()> {
    let is_so = four_workers_meet_at_four_jobs(rt, alloc, base)?;
    show(rt, "four workers meet at four jobs", is_so)?;
    let is_so = all_ends_wait_for_a_late_taker(rt, alloc, base)?;
    show(rt, "all ends wait for a late taker", is_so)
}

/// Whether a taker comes to this that begins once a flag is up, in time, and takes at most so many turns of these jobs.
fn comes_to(
    rt: &(impl Clock + Threads + Wait + Sync),
    alloc: Global,
    base: &Snapshot,
    jobs: &[Job],
    workers: u32,
    gate: &(impl Gate + Sync),
    from: &Flag,
    most: u32,
    wanted: TakerStage,
) -> Result<bool>
    requires { (length jobs.now ≤ most_jobs) × (0 < workers) × (workers ≤ most_seats) }
{
    let mut taker = Taking::new(rt, alloc, jobs, base, from, most)?;
    run_in_order(rt, alloc, jobs, workers, gate, base, &mut taker)?;
    Ok(taker.came_to() == (wanted, true))
}

/// The caller is the fourth worker.
fn four_workers_meet_at_four_jobs<R: Clock + Threads + Wait + Sync>(
    rt: &R,
    alloc: Global,
    base: &Snapshot,
) -> Result<bool> {
    let jobs = [job_at(0, 0); 4];
    let gate = Holding::new(rt, 4, 4, 0)?;
    let from = Flag::new();
    from.raise();
    let wanted = TakerStage::Going(4);
    let is_so = comes_to(rt, alloc, base, &jobs, 4, &gate, &from, u32::MAX, wanted)?;
    Ok(is_so && !gate.has_failed())
}

/// The other worker runs all jobs before the taker begins, so it must get rid of their ends.
fn all_ends_wait_for_a_late_taker<R: Clock + Threads + Wait + Sync>(
    rt: &R,
    alloc: Global,
    base: &Snapshot,
) -> Result<bool> {
    let jobs = [job_at(0, 0); 64];
    let gate = Counting::new(64);
    let until = &gate.reached;
    let wanted = TakerStage::Going(64);
    comes_to(rt, alloc, base, &jobs, 2, &gate, until, u32::MAX, wanted)
}

/// The other worker runs the second job, which has no end.
fn a_taker_stops_beside_an_endless_job<R: Clock + Threads + Wait + Sync>(
    rt: &R,
    alloc: Global,
) -> Result<bool> {
    let base = base_of(alloc, &ENDLESS)?;
    for _ in 0..TIMES {
        if !stops_early(rt, alloc, &base)? {
            return Ok(false);
        }
    }
    Ok(true)
}

/// Whether a taker that takes one turn stops then.
fn stops_early<R: Clock + Threads + Wait + Sync>(
    rt: &R,
    alloc: Global,
    base: &Snapshot,
) -> Result<bool> {
    let jobs = [job_at(0, 0), job_at(7, 0), job_at(7, 0)];
    let gate = Counting::new(2);
    let until = &gate.reached;
    let wanted = TakerStage::Stopped(1);
    comes_to(rt, alloc, base, &jobs, 2, &gate, until, 1, wanted)
}
