//! A phase of a run is made ready and shared out.
ghost use Rattle.std.specs.Prelude.{◌≡◌, ◌<◌, ◌≤◌, All, length, vec_len, IfOk};
ghost use Rattle.claim_table.specs.Logs.{most_seats};
ghost use Rattle.paged_memory.specs.Snapshot.{cells_of};
ghost use Rattle.token.specs.RunInTurn.{point_of};
ghost use Rattle.token.specs.Segments as segments;
ghost use Rattle.worker_pool.specs.Jobs.{IsAsked, jobs_in};

use crate::ends_of_run::EndsOfRun;
use crate::first_job::FirstJob;
use crate::of_run::OfRun;
use claim_table::DrawSeat;
use phase_jobs::SharedJobs;
use phase_workers::{Dispatcher, Hand, SharedPhase};
use segment::Segment;
use std::alloc::{AllocError, Global};
use std::sync::Wait;
use token::{Recorder, Serial};

/// The jobs of some threads in the present phase of a run, in their order.
pub fn jobs_of<K: Recorder>(
    alloc: Global,
    serial: &Serial<K>,
    threads: &[u32],
) -> Result<Vec<Segment>, AllocError>
    requires { All (λ thread. thread < length (point_of serial.now).base_threads) threads.now }
    ensures { IfOk result (λ jobs.
        jobs.items ≡ jobs_in (point_of serial.now).setup (point_of serial.now).phase
        (point_of serial.now).base_threads threads.now) }
{
    let mut jobs = Vec::with_capacity(alloc, threads.len())?;
    for thread in threads {
        jobs.push(serial.segment_of(*thread))?;
    }
    Ok(jobs)
}

/// The phase that a run is in, to be shared out to so many seats at most, and its seats.
fn shared_phase<B: OfRun, K: Recorder>(
    alloc: Global,
    serial: &Serial<K>,
    seats: u32,
) -> Result<(SharedPhase<EndsOfRun<B>>, Vec<DrawSeat>), AllocError>
    requires run { IsAsked B.setup serial.now }
    requires seats { (0 < seats) × (seats ≤ most_seats) }
    ensures some { IfOk result (λ made. 0 < vec_len made.1) }
    ensures seats { IfOk result (λ made. All (λ seat. seat.row ≡ made.0.phase.row) made.1.items) }
    ensures base { IfOk result (λ made. cells_of made.0.phase.base ≡ (point_of serial.now).base) }
    ensures jobs { IfOk result (λ made. made.0.phase.jobs
        ≡ jobs_in B.setup (point_of serial.now).phase (point_of serial.now).base_threads made.0.names) }
    ensures names { IfOk result (λ made. made.0.names ≡ segments.jobs_of (point_of serial.now).base_threads (point_of serial.now).list) }
{
    let ready = serial.jobs();
    let threads = Vec::from_slice(alloc, ready.as_slice())?;
    let jobs = jobs_of(alloc, serial, threads.as_slice())?;
    let (phase, seats) = SharedJobs::open(alloc, jobs.as_slice(), seats, serial.base())?;
    Ok((SharedPhase::new(serial.phase(), threads, phase), seats))
}

/// The seat of the caller, which is the first one.
fn first_seat<B: OfRun>(shared: &SharedPhase<EndsOfRun<B>>, seats: &mut Vec<DrawSeat>) -> DrawSeat
    requires some { 0 < vec_len seats.old }
    requires rows { All (λ seat. seat.row ≡ shared.now.phase.row) seats.old.items }
    ensures row { result.row ≡ shared.now.phase.row }
    ensures rows { All (λ seat. seat.row ≡ shared.now.phase.row) seats.new.items }
{
    seats.remove(0)
}

/// Draws the jobs of the threads before one. They have had their turns, so nobody needs to execute these jobs.
fn draw_before<B: OfRun>(shared: &SharedPhase<EndsOfRun<B>>, seat: &mut DrawSeat, thread: u32)
    requires { seat.old.row ≡ shared.now.phase.row }
    ensures { seat.new.row ≡ seat.old.row }
{
    for name in shared.names() {
        if *name == thread {
            return;
        }
        let _ = shared.jobs().draw(seat);
    }
}

/// Shares the present phase of a run out to so many host threads at most, the caller counted: this job and those after
/// it. Whether the phase has two jobs, so that this could be done.
pub(crate) fn share_out<B: OfRun + Send + Sync, R: Wait, K: Recorder>(
    rt: &R,
    alloc: Global,
    dispatcher: &mut Dispatcher<EndsOfRun<B>>,
    serial: &Serial<K>,
    most: u32,
    from: FirstJob,
) -> Result<bool, AllocError>
    requires run { IsAsked B.setup serial.now }
    requires most { (0 < most) × (most ≤ most_seats) }
{
    let jobs = serial.jobs().len();
    if jobs < 2 {
        return Ok(false);
    }
    let hands = most.min(jobs as u32);
    let (shared, mut seats) = shared_phase::<B, K>(alloc, serial, hands)?;
    let mut seat = first_seat(&shared, &mut seats);
    draw_before(&shared, &mut seat, from.thread);
    let shared = shared.with_told(from.told);
    dispatcher.share(rt, alloc, shared, Hand { seat, held: None }, seats)?;
    Ok(true)
}
