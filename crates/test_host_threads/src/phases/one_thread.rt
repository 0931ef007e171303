//! Phases that one thread runs.

ghost use Rattle.std.specs.Prelude.{◌≡◌, ◌<◌, ◌≤◌, length, All, IfOk};
ghost use Rattle.claim_table.specs.Logs.{most_jobs, most_seats, new_log};
ghost use Rattle.parallel_phase.specs.Work.{IsWorkOf};

use crate::phases::fates::{Fate, are, are_all};
use crate::phases::fixtures::{address_of, base_of, job_at};
use crate::phases::shown::show;
use anyhow::Result;
use claim_table::DrawSeat;
use data_guest_programs::{BAD_WRITE, SEVEN};
use hart::Stop;
use paged_memory::Snapshot;
use parallel_phase::{Job, ParallelPhase, WorkDone, run_phase};
use phase_jobs::OpenGate;
use std::alloc::{AllocError, Global};
use std::thread::Threads;

/// Prints the rows of phases that one thread runs.
pub fn show_one_thread<R: Print + Threads + Sync>(rt: &R, alloc: Global) -> Result<()> {
    let is_so = a_job_above_an_exit_is_skipped(rt, alloc)?;
    show(rt, "a job above an exit is skipped", is_so)?;
    let is_so = the_first_seat_takes_all_jobs(rt, alloc)?;
    show(rt, "the first seat takes all jobs", is_so)
}

fn a_job_above_an_exit_is_skipped<R: Threads + Sync>(rt: &R, alloc: Global) -> Result<bool> {
    let base = base_of(alloc, &SEVEN)?;
    let jobs = [job_at(0, 0), job_at(0, 1)];
    let outcomes = run_phase(rt, alloc, &jobs, 1, &OpenGate, &base)?;
    let wanted = [Fate::Ran(Stop::Ecall, 3, address_of(2)), Fate::Skipped];
    Ok(are(&outcomes, &wanted))
}

/// The works of all seats, one after another in this thread.
fn work_in_turn(
    phase: &ParallelPhase,
    seats: Vec<DrawSeat>,
    alloc: Global,
) -> Result<Vec<WorkDone>, AllocError>
    requires { All (λ seat. (seat.row ≡ phase.now.row) × (seat.log ≡ new_log 1)) seats.items }
    ensures long { IfOk result (λ works. length works.items ≡ length seats.items) }
    ensures works { IfOk result (λ works. All (IsWorkOf phase.now) works.items) }
{
    let mut works = Vec::new(alloc);
    for seat in seats {
        works.push(phase.work(seat, &OpenGate))?;
    }
    Ok(works)
}

/// Whether the first of some works has all jobs, and none was refused.
fn are_all_first(works: &[WorkDone], jobs: usize) -> bool {
    let mut left = jobs;
    for work in works {
        if work.outcomes().len() != left || work.was_refused() {
            return false;
        }
        left = 0;
    }
    true
}

/// What becomes of a job at the entry of `bad-write`.
const WRITES: Fate = Fate::Ran(Stop::Ecall, 4, 0x0001_000C);

fn the_first_seat_takes_all_jobs<R: Threads + Sync>(rt: &R, alloc: Global) -> Result<bool> {
    let base = base_of(alloc, &BAD_WRITE)?;
    let jobs = [job_at(0, 0), job_at(0, 1), job_at(0, 2)];
    let outcomes = run_phase(rt, alloc, &jobs, 4, &OpenGate, &base)?;
    Ok(are_all(&outcomes, 3, WRITES) && is_all_of_first(alloc, &jobs, &base)?)
}

/// Whether the first of four seats that work in turn has all jobs.
fn is_all_of_first(alloc: Global, jobs: &[Job], base: &Snapshot) -> Result<bool, AllocError>
    requires { length jobs.now ≤ most_jobs }
{
    let (phase, seats) = ParallelPhase::open(alloc, jobs, 4, base)?;
    let works = work_in_turn(&phase, seats, alloc)?;
    let are_first = are_all_first(&works, jobs.len());
    let outcomes = phase.collect(works)?;
    Ok(are_first && are_all(&outcomes, jobs.len(), WRITES))
}
