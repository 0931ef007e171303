//! Whole runs taken phase by phase.
ghost use Rattle.std.specs.Prelude.{◌≡◌, ◌<◌, ◌≤◌, IfOk};
ghost use Rattle.claim_table.specs.Logs.{most_seats};
ghost use Rattle.token.specs.RunInTurn.{point_of};

use crate::phase_turns::PhaseTurns;
use claim_table::JOBS;
use parallel_phase::run_in_order;
use phase_jobs::Gate;
use std::alloc::{AllocError, Global};
use std::marker::Brand;
use std::sync::Wait;
use std::thread::Threads;
use token::{Kept, Need, Serial, Start};
use tracer::trace_text;
use worker_pool::OfRun;

/// Does the turns of the phase that a run is in.
fn do_phase<B: OfRun, G: Gate + Sync, R: Threads + Wait + Sync>(
    rt: &R,
    alloc: Global,
    serial: Serial<Kept>,
    workers: u32,
    gate: &G,
) -> Result<Serial<Kept>, AllocError>
    requires setup { (point_of serial).setup ≡ B.setup }
    requires workers { (0 < workers) × (workers ≤ most_seats) }
    ensures { IfOk result (λ after. (point_of after).setup ≡ B.setup) }
{
    let mut turns = PhaseTurns::<B, G>::open(alloc, serial, gate)?;
    let jobs = Vec::from_slice(alloc, turns.jobs())?;
    let base = turns.base().try_clone()?;
    if jobs.len() <= JOBS {
        run_in_order(rt, alloc, jobs.as_slice(), workers, gate, &base, &mut turns)?;
    }
    Ok(turns.into_serial())
}

/// Does all turns of a run.
fn do_phases<B: OfRun, G: Gate + Sync, R: Threads + Wait + Sync>(
    rt: &R,
    alloc: Global,
    serial: Serial<Kept>,
    workers: u32,
    gate: &G,
) -> Result<Serial<Kept>, AllocError>
    requires setup { (point_of serial).setup ≡ B.setup }
    requires workers { (0 < workers) × (workers ≤ most_seats) }
{
    let mut serial = serial;
    for _ in rt.forever() {
        if let Need::Ended(_) = serial.need() {
            return Ok(serial);
        }
        serial = do_phase::<B, G, R>(rt, alloc, serial, workers, gate)?;
    }
    unreachable!()
}

/// The trace of a run whose phases are done one by one, with so many workers. The gate is told of jobs and turns.
pub fn trace_of<G: Gate + Sync, R: Threads + Wait + Sync>(
    rt: &R,
    alloc: Global,
    start: Start,
    workers: u32,
    gate: &G,
) -> Result<String, AllocError>
    requires { (0 < workers) × (workers ≤ most_seats) }
{
    let serial = start.recorded_by(Kept::new(alloc));
    let ended = do_phases::<Brand, G, R>(rt, alloc, serial, workers, gate)?;
    trace_text(alloc, ended.turns())
}
