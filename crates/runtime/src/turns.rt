//! The turns of a run, in token order, beside the host threads that execute its segments.
ghost use Rattle.std.specs.Prelude.{◌≡◌, ◌<◌, ◌≤◌, None, Some, IfOk, IfErr, IfNone, OnErr};
ghost use Rattle.token.specs.Point.{need_at};
ghost use Rattle.token.specs.RunInTurn.{point_of};
ghost use Rattle.token.specs.Serial.{IsAskedFor};
ghost use Rattle.abi.specs.Limits as limit;
ghost use Rattle.runtime.specs.Turns.{GoesOn, MayGoOn, MovesBeside, WantsOnly, found_end};
ghost use denote.Param.Send.{IsSync, IsSend};

use crate::interruption::Interruption;
use crate::look::Look;
use crate::sending::send;
use crate::sink::Sink;
use phase_jobs::Gate;
use std::alloc::Global;
use std::sync::Wait;
use std::thread::{Threads, join_mut};
use token::{Need, Recorder, RunOutcome, Serial, TurnFault, Work};
use worker_pool::{EndsOfRun, OfRun, Pool, WorkerChannels};

/// Does the next turn, or answers how the run ended or that a worker is wanted first.
fn take_turn<B: OfRun + Send + Sync, R: Wait, K: Recorder, G: Gate>(
    rt: &R,
    serial: &mut Serial<K>,
    pool: &mut Pool<B>,
    gate: &G,
) -> Result<Look, TurnFault>
    requires { (point_of serial.old).setup ≡ B.setup }
    ensures setup { (point_of serial.new).setup ≡ (point_of serial.old).setup }
    ensures moved { IfOk result (λ look. MovesBeside look (point_of serial.old) (point_of serial.new)) }
    ensures kept { OnErr result (point_of serial.new ≡ point_of serial.old) }
    ensures unended { OnErr result ((point_of serial.old).ended ≡ None) }
    ensures fault { IfErr result (λ fault. fault ≡ TurnFault.WriteFailed → K.writes) }
    ensures pool { pool.new ≡ pool.old }
    ensures wants { WantsOnly result pool.old }
{
    match serial.need() {
        Need::Ended(outcome) => Ok(Look::Ended(outcome)),
        Need::Segment(work) => {
            if !pool.is_alone(serial) {
                return take_turn_beside(rt, serial, pool, gate, &work);
            }
            let end = pool.segment_alone(serial, &work, gate)?;
            serial.turn(Some(&end))?;
            gate.turned(work.thread);
            Ok(Look::Turned)
        }
        Need::Keeper(work) => {
            let end = work.segment.run(serial.now())?;
            serial.turn(Some(&end))?;
            gate.turned(work.thread);
            Ok(Look::Turned)
        }
        Need::Wake { thread } => {
            serial.turn(None)?;
            gate.turned(thread);
            Ok(Look::Turned)
        }
    }
}

/// Does the next turn, of whose phase workers may execute jobs, or answers that a worker is wanted first.
#[inline(never)]
fn take_turn_beside<B: OfRun + Send + Sync, R: Wait, K: Recorder, G: Gate>(
    rt: &R,
    serial: &mut Serial<K>,
    pool: &mut Pool<B>,
    gate: &G,
    work: &Work,
) -> Result<Look, TurnFault>
    requires setup { (point_of serial.old).setup ≡ B.setup }
    requires asked { IsAskedFor serial.old }
    requires need { need_at (point_of serial.old) ≡ Need.Segment work.now }
    ensures setup { (point_of serial.new).setup ≡ (point_of serial.old).setup }
    ensures moved { IfOk result (λ look. MovesBeside look (point_of serial.old) (point_of serial.new)) }
    ensures kept { OnErr result (point_of serial.new ≡ point_of serial.old) }
    ensures unended { OnErr result ((point_of serial.old).ended ≡ None) }
    ensures fault { IfErr result (λ fault. fault ≡ TurnFault.WriteFailed → K.writes) }
    ensures pool { pool.new ≡ pool.old }
    ensures wants { WantsOnly result pool.old }
{
    let Some(end) = pool.segment(rt, serial, work, gate)? else {
        return Ok(Look::WantsWorker);
    };
    serial.turn(Some(&end))?;
    gate.turned(work.thread);
    Ok(Look::Turned)
}

/// Does the next turn and sends what it wrote, or answers how the run ended or that a worker is wanted first.
fn send_turn<B: OfRun + Send + Sync, R: Wait, K: Recorder, G: Gate, S: Sink>(
    rt: &R,
    serial: &mut Serial<K>,
    pool: &mut Pool<B>,
    gate: &G,
    sink: &mut S,
) -> Result<Look, Interruption>
    requires { MayGoOn S.failed B.setup serial.old sink.old }
    ensures goes { GoesOn K.writes S.taken S.failed found_end result serial.old serial.new sink.old sink.new }
    ensures pool { pool.new ≡ pool.old }
    ensures wants { WantsOnly result pool.old }
{
    match take_turn(rt, serial, pool, gate)? {
        Look::Turned => match send(serial.fresh(), sink) {
            Ok(()) => Ok(Look::Turned),
            Err(_) => Err(Interruption::WriteFailed),
        },
        Look::Ended(outcome) => Ok(Look::Ended(outcome)),
        Look::WantsWorker => Ok(Look::WantsWorker),
    }
}

/// Does turns, and sends the output of each before the next one, until the run has ended, and answers how; or until one
/// worker more is wanted.
fn go_on<B: OfRun + Send + Sync, R: Wait, K: Recorder, G: Gate, S: Sink>(
    rt: &R,
    serial: &mut Serial<K>,
    pool: &mut Pool<B>,
    gate: &G,
    sink: &mut S,
) -> Result<Option<RunOutcome>, Interruption>
    requires { MayGoOn S.failed B.setup serial.old sink.old }
    ensures goes { GoesOn K.writes S.taken S.failed (λ ends. ends) result serial.old serial.new sink.old sink.new }
    ensures pool { pool.new ≡ pool.old }
    ensures wants { IfOk result (λ ends. IfNone ends (pool.old.hands < pool.old.most)) }
{
    for _ in rt.forever() {
        match send_turn(rt, serial, pool, gate, sink)? {
            Look::Ended(outcome) => return Ok(Some(outcome)),
            Look::WantsWorker => return Ok(None),
            Look::Turned => {}
        }
    }
    unreachable!()
}

/// Does the rest of the turns, and answers how the run ended. Each time that one worker more is wanted, that one is
/// started.
///
/// Each is started by the caller, since the system puts a thread beside the one that starts it: where workers started
/// each other, two of them shared a processor for as long as some short runs take.
#[cycle(hiring)]
fn go_on_with<
    B: OfRun + Send + Sync,
    R: Threads + Wait + Sync,
    K: Recorder,
    G: Gate + Sync,
    S: Sink,
>(
    rt: &R,
    serial: &mut Serial<K>,
    pool: &mut Pool<B>,
    gate: &G,
    sink: &mut S,
    worker_channels: &WorkerChannels<EndsOfRun<B>>,
) -> Result<RunOutcome, Interruption>
    requires { MayGoOn S.failed B.setup serial.old sink.old }
    ensures { GoesOn K.writes S.taken S.failed Some result serial.old serial.new sink.old sink.new }
{
    if let Some(outcome) = go_on(rt, serial, pool, gate, sink)? {
        return Ok(outcome);
    }
    pool.add_worker();
    let (_, result) = join_mut(
        rt,
        &mut || worker_channels.serve(rt, gate),
        &mut || -> Result<RunOutcome, Interruption>
            requires { IsSync R.row × IsSync G.row × IsSync B.row × IsSend B.row × MayGoOn S.failed B.setup serial.now sink.now }
            ensures { GoesOn K.writes S.taken S.failed Some result serial.entry.now serial.exit.now sink.entry.now sink.exit.now }
        {
            let outcome = go_on_with(rt, serial, pool, gate, sink, worker_channels);
            pool.dismiss();
            outcome
        },
    );
    result
}

/// Does the rest of the turns, beside the workers that are started, and answers how the run ended.
fn go_on_hiring<
    B: OfRun + Send + Sync,
    R: Threads + Wait + Sync,
    K: Recorder,
    G: Gate + Sync,
    S: Sink,
>(
    rt: &R,
    serial: &mut Serial<K>,
    pool: &mut Pool<B>,
    gate: &G,
    sink: &mut S,
) -> Result<RunOutcome, Interruption>
    requires { MayGoOn S.failed B.setup serial.old sink.old }
    ensures { GoesOn K.writes S.taken S.failed Some result serial.old serial.new sink.old sink.new }
{
    let worker_channels = pool.hire()?;
    go_on_with(rt, serial, pool, gate, sink, &worker_channels)
}

/// Does all turns with so many host threads at most, the caller's included, and sends the output of each before the
/// next one. Answers how the run ended.
pub(crate) fn take_turns<
    B: OfRun + Send + Sync,
    R: Threads + Wait + Sync,
    K: Recorder,
    G: Gate + Sync,
    S: Sink,
>(
    rt: &R,
    alloc: Global,
    serial: &mut Serial<K>,
    workers: u32,
    gate: &G,
    sink: &mut S,
) -> Result<RunOutcome, Interruption>
    requires may { MayGoOn S.failed B.setup serial.old sink.old }
    requires workers { (0 < workers) × (workers ≤ limit.workers) }
    ensures { GoesOn K.writes S.taken S.failed Some result serial.old serial.new sink.old sink.new }
{
    let mut pool = Pool::<B>::new(alloc, workers, gate.first_shared());
    if let Some(outcome) = go_on(rt, serial, &mut pool, gate, sink)? {
        return Ok(outcome);
    }
    go_on_hiring(rt, serial, &mut pool, gate, sink)
}
