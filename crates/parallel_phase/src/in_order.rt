//! The turns of a phase's jobs, taken in their order while workers run later jobs.

ghost use Rattle.std.specs.Prelude.{◌≡◌, ◌<◌, ◌≤◌, length, All, IfOk, OnOk, OnErr};
ghost use Rattle.paged_memory.specs.Snapshot.{cells_of};
ghost use Rattle.claim_table.specs.Logs.{most_jobs, most_seats};
ghost use Rattle.phase_workers.specs.Hands.{Has};
ghost use Rattle.parallel_phase.specs.Ran.{IsRanOf};
ghost use Rattle.parallel_phase.specs.Turns.{IsCutShort, IsTakerOf, IsThrough, MayTakeTurns, TakesTurns, numbers_to};
ghost use Rattle.parallel_phase.specs.declared.taker_stage.TakerStage.TheVariants.{New};
ghost use denote.Param.Send.{IsSend, IsSync};

use crate::ends_of_phase::EndsOfPhase;
use crate::finished_job::FinishedJob;
use crate::of_phase::OfPhase;
use crate::turn_taker::TurnTaker;
use crate::whole_phase::seats_for;
use claim_table::DrawSeat;
use paged_memory::Snapshot;
use phase_jobs::{Gate, SharedJobs};
use phase_workers::{Dispatcher, Hand, SharedPhase, WorkerChannels};
use segment::Segment;
use std::alloc::{AllocError, Global};
use std::marker::Brand;
use std::sync::Wait;
use std::thread::{Threads, join_mut};

/// The number of the only phase of a call.
const PHASE: u64 = 0;

/// The numbers of so many jobs, in their order.
fn numbers(alloc: Global, jobs: usize) -> Result<Vec<u32>, AllocError>
    requires { jobs ≤ most_jobs }
    ensures { IfOk result (λ names. names.items ≡ numbers_to jobs) }
{
    let mut names = Vec::with_capacity(alloc, jobs)?;
    for number in 0..jobs as u32 {
        names.push(number)?;
    }
    Ok(names)
}

/// The jobs of a phase, to be shared out, the caller's hand of it, and the seats of its workers.
fn shared_phase<J: OfPhase>(
    alloc: Global,
    jobs: &[Segment],
    seats: u32,
    base: &Snapshot,
) -> Result<(SharedPhase<EndsOfPhase<J>>, Hand, Vec<DrawSeat>), AllocError>
    requires limits { (length jobs.now ≤ most_jobs) × (0 < seats) × (seats ≤ most_seats) }
    requires named { (J.jobs ≡ jobs.now) × (J.memory ≡ cells_of base.now) }
    ensures hand { IfOk result (λ made. Has made.0.phase made.1) }
    ensures seats { IfOk result (λ made. All (λ seat. seat.row ≡ made.0.phase.row) made.2.items) }
{
    let names = numbers(alloc, jobs.len())?;
    let (shared, mut others) = SharedJobs::open(alloc, jobs, seats, base)?;
    let seat = others.remove(0);
    Ok((
        SharedPhase::new(PHASE, names, shared),
        Hand { seat, held: None },
        others,
    ))
}

/// A job of a phase, run to its end, whoever ran it.
fn result_of<J: OfPhase + Send + Sync, G: Gate, R: Wait>(
    rt: &R,
    dispatcher: &mut Dispatcher<EndsOfPhase<J>>,
    gate: &G,
    jobs: &[Segment],
    base: &Snapshot,
    number: u32,
) -> Result<FinishedJob, AllocError>
    requires named { (J.jobs ≡ jobs.now) × (J.memory ≡ cells_of base.now) }
    requires inside { number < length jobs.now }
    ensures { IfOk result (IsRanOf jobs.now (cells_of base.now) number) }
{
    let job = jobs[number as usize];
    let end = match dispatcher.awaited(rt, gate, PHASE, number) {
        Some(end) => end,
        None => job.run(base)?,
    };
    Ok(FinishedJob::new(number, job, base.try_clone()?, end))
}

/// Lets a taker take the turns of the jobs in order.
fn take_turns<J: OfPhase + Send + Sync, G: Gate, R: Wait, T: TurnTaker>(
    rt: &R,
    dispatcher: &mut Dispatcher<EndsOfPhase<J>>,
    gate: &G,
    jobs: &[Segment],
    base: &Snapshot,
    taker: &mut T,
) -> Result<(), AllocError>
    requires { MayTakeTurns T.turns_of T.begins_with T.taker_stage J.jobs J.memory jobs.now (cells_of base.now) taker.old }
    ensures { TakesTurns T.turns_of T.begins_with T.taker_stage result jobs.now taker.old taker.new }
{
    if !taker.begin()? {
        return Ok(());
    }
    for number in 0..jobs.len() as u32 {
        let ran = result_of(rt, dispatcher, gate, jobs, base, number)?;
        if !taker.take(number, ran)? {
            return Ok(());
        }
    }
    Ok(())
}

/// Takes turns beside so many workers, each in a thread of its own if one can be started, and dismisses them.
#[cycle(serving)]
fn take_beside<J: OfPhase + Send + Sync, G: Gate + Sync, R: Threads + Wait + Sync, T: TurnTaker>(
    rt: &R,
    dispatcher: &mut Dispatcher<EndsOfPhase<J>>,
    worker_channels: &WorkerChannels<EndsOfPhase<J>>,
    workers: usize,
    gate: &G,
    jobs: &[Segment],
    base: &Snapshot,
    taker: &mut T,
) -> Result<(), AllocError>
    requires { MayTakeTurns T.turns_of T.begins_with T.taker_stage J.jobs J.memory jobs.now (cells_of base.now) taker.old }
    ensures { TakesTurns T.turns_of T.begins_with T.taker_stage result jobs.now taker.old taker.new }
{
    if workers == 0 {
        let taken = take_turns(rt, dispatcher, gate, jobs, base, taker);
        dispatcher.dismiss();
        return taken;
    }
    let others = workers - 1;
    let (_, taken) = join_mut(
        rt,
        &mut || worker_channels.serve(rt, gate),
        &mut || -> Result<(), AllocError>
            requires { IsSync R.row × IsSync G.row × IsSync J.row × IsSend J.row
                × MayTakeTurns T.turns_of T.begins_with T.taker_stage J.jobs J.memory jobs.now (cells_of base.now) taker.now }
            ensures { TakesTurns T.turns_of T.begins_with T.taker_stage result jobs.entry.now taker.entry.now taker.exit.now }
        {
            take_beside(
                rt,
                dispatcher,
                worker_channels,
                others,
                gate,
                jobs,
                base,
                taker,
            )
        },
    );
    taken
}

/// Shares a phase out and takes the turns of its jobs.
fn in_order<J: OfPhase + Send + Sync, G: Gate + Sync, R: Threads + Wait + Sync, T: TurnTaker>(
    rt: &R,
    alloc: Global,
    jobs: &[Segment],
    seats: u32,
    gate: &G,
    base: &Snapshot,
    taker: &mut T,
) -> Result<(), AllocError>
    requires seats { (0 < seats) × (seats ≤ most_seats) }
    requires turns { MayTakeTurns T.turns_of T.begins_with T.taker_stage J.jobs J.memory jobs.now (cells_of base.now) taker.old }
    ensures { TakesTurns T.turns_of T.begins_with T.taker_stage result jobs.now taker.old taker.new }
{
    let mut dispatcher = Dispatcher::new();
    let worker_channels = dispatcher.hire(alloc)?;
    let (shared, hand, others) = shared_phase::<J>(alloc, jobs, seats, base)?;
    let workers = others.len();
    dispatcher.share(rt, alloc, shared, hand, others)?;
    take_beside(
        rt,
        &mut dispatcher,
        &worker_channels,
        workers,
        gate,
        jobs,
        base,
        taker,
    )
}

/// Runs the jobs of a phase, at most 256, on a memory by 1 to 64 workers, of which the caller's thread is one, and lets
/// a taker take their turns in order, while later jobs run. `Ok` where the taker took all turns or answered false; it is
/// then over at once, but for slices of jobs that have begun. `Err` where memory was refused before the taker had all
/// turns: it then hasn't begun, goes on after the turns of some first jobs, or failed itself.
///
/// The taker hasn't begun, and it takes the turns of these jobs on this memory. No more threads are started than there
/// are jobs but one. Where a thread can't be started, the others run its jobs.
pub fn run_in_order<G: Gate + Sync, R: Threads + Wait + Sync, T: TurnTaker>(
    rt: &R,
    alloc: Global,
    jobs: &[Segment],
    workers: u32,
    gate: &G,
    base: &Snapshot,
    taker: &mut T,
) -> Result<(), AllocError>
    requires limits { (length jobs.now ≤ most_jobs) × (0 < workers) × (workers ≤ most_seats) }
    requires taker { IsTakerOf jobs.now (cells_of base.now) (T.turns_of taker.old) (T.begins_with taker.old) (T.taker_stage taker.old) New }
    ensures same { (T.turns_of taker.new ≡ T.turns_of taker.old) × (T.begins_with taker.new ≡ T.begins_with taker.old) }
    ensures through { OnOk result (IsThrough jobs.now (T.taker_stage taker.new)) }
    ensures short { OnErr result (IsCutShort jobs.now (T.taker_stage taker.new)) }
{
    let seats = seats_for(jobs.len(), workers);
    in_order::<Brand, G, R, T>(rt, alloc, jobs, seats, gate, base, taker)
}
