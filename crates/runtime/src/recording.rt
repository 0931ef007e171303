//! Runs with a recorder.
ghost use Rattle.std.specs.Prelude.{◌≡◌, ◌-◌, ◌^◌, ◌<◌, ◌≤◌, []};
ghost use Rattle.token.specs.RunInTurn.{point_of};
ghost use Rattle.abi.specs.Limits as limit;
ghost use Rattle.runtime.specs.Faults as spec;
ghost use Rattle.runtime.specs.Recorded.{AnswersRecorded, ComesTo, IsConcluded, IsConclusion};
ghost use Rattle.runtime.specs.Run.{OpensRun, setup_from};
ghost use Rattle.runtime.specs.Sending.{CountsFailures, SendsEnd};

use crate::interruption::Interruption;
use crate::open_fault::OpenFault;
use crate::opening::open_image;
use crate::recorded_run::RecordedRun;
use crate::reporting::end_of;
use crate::run_end::RunEnd;
use crate::run_fault::RunFault;
use crate::sink::Sink;
use crate::turns::take_turns;
use abi::limits::MAX_WORKERS;
use phase_jobs::Gate;
use shuffled_phases::Config;
use std::alloc::Global;
use std::marker::Brand;
use std::sync::Wait;
use std::thread::Threads;
use token::{Recorder, RunOutcome, Serial, Start, one_history};

/// Runs a file on an input, sends the output to a sink, and tells a recorder of each turn. The recorder has
/// recorded no turn before. The output's bytes are offered once their turn is recorded.
pub fn run_recorded<R: Threads + Wait + Sync, G: Gate + Sync, S: Sink, K: Recorder>(
    rt: &R,
    alloc: Global,
    elf: &[u8],
    input: &[u8],
    config: &Config,
    gate: &G,
    sink: &mut S,
    recorder: K,
) -> RecordedRun<K, RunFault>
    requires failures { S.failed sink.old < 2 ^ 64 - 1 }
    requires none { K.records recorder [] [] }
    ensures answers { AnswersRecorded K.records K.writes elf.now input.now config.now result.result result.recorder }
    // What the sink took during the call, where it tells it.
    ensures sent { SendsEnd (setup_from elf.now input.now config.now) result.result (S.taken sink.old) (S.taken sink.new) }
    // WriteFailed is answered only where the sink failed, and an end only where it didn't.
    ensures failures { CountsFailures RunFault.WriteFailed result.result (S.failed sink.old) (S.failed sink.new) }
{
    match open_run(alloc, elf, input, config) {
        Ok(start) => {
            let RecordedRun { result, recorder } = run_opened(
                rt,
                alloc,
                start,
                config.workers,
                gate,
                sink,
                recorder,
            );
            RecordedRun {
                result: told(result),
                recorder,
            }
        }
        Err(OpenFault::Refused(refusal)) => RecordedRun {
            result: Err(RunFault::from(refusal)),
            recorder,
        },
        Err(OpenFault::OutOfMemory) => RecordedRun {
            result: Err(RunFault::OutOfMemory),
            recorder,
        },
    }
}

/// What a run that began answers, its fault being one of the whole run.
fn told(ended: Result<RunEnd, Interruption>) -> Result<RunEnd, RunFault>
    ensures { result ≡ spec.told ended }
{
    match ended {
        Ok(end) => Ok(end),
        Err(interruption) => Err(RunFault::from(interruption)),
    }
}

/// The run of a file on an input, of which no turn is done. The configuration is looked at first, then the input,
/// then the file.
pub fn open_run(
    alloc: Global,
    elf: &[u8],
    input: &[u8],
    config: &Config,
) -> Result<Start, OpenFault>
    ensures { OpensRun elf.now input.now config.now result }
{
    let image = open_image(alloc, elf, input, config)?;
    Ok(Start::open(
        alloc,
        &image,
        input,
        config.bound,
        config.quantum,
        config.shuffle,
    )?)
}

/// Does all turns of a run by so many host threads at most, from 1 to 64, sends the output to a sink, and tells a
/// recorder of each turn. The recorder has recorded no turn before. The output's bytes are offered once their turn is recorded.
pub fn run_opened<R: Threads + Wait + Sync, G: Gate + Sync, S: Sink, K: Recorder>(
    rt: &R,
    alloc: Global,
    start: Start,
    workers: u32,
    gate: &G,
    sink: &mut S,
    recorder: K,
) -> RecordedRun<K, Interruption>
    requires output { (point_of start).state.output ≡ [] }
    requires failures { S.failed sink.old < 2 ^ 64 - 1 }
    requires none { K.records recorder [] [] }
    ensures { ComesTo K.records K.writes S.taken S.failed (point_of start).setup result sink.old sink.new }
{
    let workers = workers.max(1).min(MAX_WORKERS);
    record_serial(rt, alloc, start.recorded_by(recorder), workers, gate, sink)
}

/// Does all turns of a run that has done none, and answers how it ended.
fn record_serial<R: Threads + Wait + Sync, G: Gate + Sync, S: Sink, K: Recorder>(
    rt: &R,
    alloc: Global,
    serial: Serial<K>,
    workers: u32,
    gate: &G,
    sink: &mut S,
) -> RecordedRun<K, Interruption>
    requires output { (point_of serial).state.output ≡ [] }
    requires workers { (0 < workers) × (workers ≤ limit.workers) }
    requires failures { S.failed sink.old < 2 ^ 64 - 1 }
    ensures { ComesTo K.records K.writes S.taken S.failed (point_of serial).setup result sink.old sink.new }
{
    let mut serial = serial;
    let ended = take_turns::<Brand, _, _, _, _>(rt, alloc, &mut serial, workers, gate, sink);
    conclude(alloc, serial, ended)
}

/// What a run with a recorder comes to whose turns were done and ended so, or were interrupted.
pub fn conclude<K: Recorder>(
    alloc: Global,
    serial: Serial<K>,
    ended: Result<RunOutcome, Interruption>,
) -> RecordedRun<K, Interruption>
    ensures comes { IsConclusion K.records K.writes ended serial result }
    ensures concluded { IsConcluded ended result.result }
{
    one_history();
    match ended {
        Ok(outcome) => match end_of(alloc, &serial, outcome) {
            Ok(end) => RecordedRun {
                result: Ok(end),
                recorder: serial.into_recorder(),
            },
            Err(refused) => {
                let interruption = Interruption::from(refused);
                RecordedRun {
                    result: Err(interruption),
                    recorder: serial.into_recorder(),
                }
            }
        },
        Err(interruption) => RecordedRun {
            result: Err(interruption),
            recorder: serial.into_recorder(),
        },
    }
}
