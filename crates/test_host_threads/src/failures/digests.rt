//! What phases come to.
ghost use Rattle.std.specs.Prelude.{◌<◌, ◌≤◌};
ghost use Rattle.claim_table.specs.Logs.{most_seats};

use crate::failures::guests::{Guest, jobs_of, memory_of};
use crate::failures::taker::Digester;
use commit::changed;
use parallel_phase::{FinishedJob, Outcome, run_in_order, run_phase};
use phase_jobs::OpenGate;
use std::alloc::{AllocError, Global};
use std::sync::Wait;
use std::thread::Threads;

/// A digest with a further number.
pub fn mixed(digest: u64, number: u64) -> u64 {
    (digest ^ number).wrapping_mul(0x0100_0000_01b3)
}

/// A digest with a job that was run.
pub fn with_ran(digest: u64, ran: &FinishedJob) -> u64 {
    let end = ran.end();
    let digest = mixed(digest, u64::from(ran.number()));
    let digest = mixed(digest, u64::from(end.hart.pc()));
    mixed(mixed(digest, end.count), changed(&end.patch))
}

/// The digest of what became of some jobs.
fn digest_of(outcomes: &[Outcome]) -> u64 {
    let mut digest = 0;
    for outcome in outcomes {
        digest = match outcome {
            Outcome::Ran(ran) => with_ran(digest, ran),
            Outcome::Skipped => mixed(digest, u64::MAX),
        };
    }
    digest
}

/// The digest of a guest's phase. None where memory was refused for its image.
pub fn digest_of_phase<R: Threads + Sync>(
    rt: &R,
    alloc: Global,
    guest: &Guest,
    workers: u32,
) -> Result<Option<u64>, AllocError>
    requires { (0 < workers) × (workers ≤ most_seats) }
{
    let Some(base) = memory_of(alloc, guest)? else {
        return Ok(None);
    };
    let jobs = jobs_of(guest);
    let outcomes = run_phase(rt, alloc, &jobs, workers, &OpenGate, &base)?;
    Ok(Some(digest_of(&outcomes)))
}

/// The digest of a guest's phase whose jobs are taken in order. None where memory was refused for its image.
pub fn digest_in_order<R: Threads + Wait + Sync>(
    rt: &R,
    alloc: Global,
    guest: &Guest,
    workers: u32,
) -> Result<Option<u64>, AllocError>
    requires { (0 < workers) × (workers ≤ most_seats) }
{
    let Some(base) = memory_of(alloc, guest)? else {
        return Ok(None);
    };
    let jobs = jobs_of(guest);
    let mut digester = Digester::new(alloc, &jobs, &base)?;
    run_in_order(rt, alloc, &jobs, workers, &OpenGate, &base, &mut digester)?;
    Ok(Some(digester.digest()))
}
