//! Phases that several threads run.

ghost use Rattle.std.specs.Prelude.{◌<◌, ◌≤◌, length};
ghost use Rattle.claim_table.specs.Logs.{most_jobs, most_seats};

use crate::phases::fates::{Fate, are, are_all};
use crate::phases::fixtures::{base_of, job_at};
use crate::phases::gates::{Holding, Tie, Waiting};
use crate::phases::shown::{show, show_at};
use anyhow::Result;
use data_guest_programs::{BAD_WRITE, ENDLESS};
use hart::Stop;
use paged_memory::Snapshot;
use parallel_phase::{Job, run_phase};
use phase_jobs::{Gate, OpenGate};
use std::alloc::{AllocError, Global};
use std::rt::Clock;
use std::thread::Threads;

/// What becomes of a job at the entry of `bad-write`.
const WRITES: Fate = Fate::Ran(Stop::Ecall, 4, 0x0001_000C);

/// Prints the rows of phases that several threads run.
pub fn show_many_hands<R: Clock + Print + Threads + Sync>(rt: &R, alloc: Global) -> Result<()> {
    let base = base_of(alloc, &BAD_WRITE)?;
    show_held_jobs(rt, alloc, &base)?;
    show_held_workers(rt, alloc, &base)?;
    show_many_jobs(rt, alloc, &base)?;
    let is_so = an_endless_job_is_given_up(rt, alloc)?;
    show(
        rt,
        "an endless job is given up beside one that exits",
        is_so,
    )
}

/// Prints the rows of three jobs of which one is held.
fn show_held_jobs<R: Clock + Print + Threads + Sync>(
    rt: &R,
    alloc: Global,
    base: &Snapshot,
) -> Result<()> {
    for held in [0, 1] {
        let is_so = either_worker_draws_the_third_job(rt, alloc, base, held)?;
        show_at(
            rt,
            "either worker draws the third job, held job",
            held,
            is_so,
        )?;
    }
    Ok(())
}

/// Prints the rows of four workers of which one is held.
fn show_held_workers<R: Clock + Print + Threads + Sync>(
    rt: &R,
    alloc: Global,
    base: &Snapshot,
) -> Result<()> {
    for held in 0..4 {
        let is_so = a_worker_is_held(rt, alloc, base, held)?;
        show_at(rt, "each worker in turn is held, worker", held, is_so)?;
    }
    Ok(())
}

/// Prints the rows of as many jobs as there may be.
fn show_many_jobs<R: Print + Threads + Sync>(rt: &R, alloc: Global, base: &Snapshot) -> Result<()> {
    let jobs = [job_at(0, 0); 256];
    for workers in [1, 2, 64] {
        let is_so = all_write(rt, alloc, base, &jobs, workers, &OpenGate)?;
        show_at(rt, "as many jobs as there may be, workers", workers, is_so)?;
    }
    Ok(())
}

/// Whether each job writes in a phase of so many workers.
fn all_write(
    rt: &(impl Threads + Sync),
    alloc: Global,
    base: &Snapshot,
    jobs: &[Job],
    workers: u32,
    gate: &(impl Gate + Sync),
) -> Result<bool, AllocError>
    requires { (length jobs.now ≤ most_jobs) × (0 < workers) × (workers ≤ most_seats) }
{
    let outcomes = run_phase(rt, alloc, jobs, workers, gate, base)?;
    Ok(are_all(&outcomes, jobs.len(), WRITES))
}

fn either_worker_draws_the_third_job<R: Clock + Threads + Sync>(
    rt: &R,
    alloc: Global,
    base: &Snapshot,
    held: u32,
) -> Result<bool> {
    let gate = Tie::new(rt, held)?;
    let jobs = [job_at(0, 0); 3];
    Ok(all_write(rt, alloc, base, &jobs, 2, &gate)? && !gate.has_failed())
}

fn a_worker_is_held<R: Clock + Threads + Sync>(
    rt: &R,
    alloc: Global,
    base: &Snapshot,
    held: u32,
) -> Result<bool> {
    let gate = Holding::new(rt, 4, 8, held)?;
    let jobs = [job_at(0, 0); 8];
    Ok(all_write(rt, alloc, base, &jobs, 4, &gate)? && !gate.has_failed())
}

/// Job 0 exits once the other worker has come to job 1, which has no end. So that worker gives its job up only if it sees
/// what the first one noted.
fn an_endless_job_is_given_up<R: Clock + Threads + Sync>(rt: &R, alloc: Global) -> Result<bool> {
    let base = base_of(alloc, &ENDLESS)?;
    let jobs = [job_at(4, 0), job_at(7, 0)];
    let wanted = [Fate::Ran(Stop::Ecall, 3, 0x0001_0018), Fate::Skipped];
    let gate = Waiting::new(rt)?;
    let outcomes = run_phase(rt, alloc, &jobs, 2, &gate, &base)?;
    Ok(are(&outcomes, &wanted) && !gate.has_failed())
}
