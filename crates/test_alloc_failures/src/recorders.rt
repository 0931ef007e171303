//! Runs whose turns are recorded as they are done.
ghost use Rattle.std.specs.Prelude.{IfOk, option_map};
ghost use Rattle.token.specs.Next.{IsNext};
ghost use Rattle.token.specs.RunInTurn.{point_of};
ghost use Rattle.token.specs.Serial.{IsNeeded};

use crate::answer::{Answer, digest_of, mixed};
use crate::failed::Failed;
use crate::retry::again;
use crate::runs::{MOST_TURNS, start_of};
use data_guest_programs::Program;
use paged_memory::Snapshot;
use run_digest::DigestRecorder;
use std::alloc::Global;
use token::{Both, Next, RunOutcome, SegmentEnd, Serial, Turn, next_turn};
use tracer::TraceRecorder;

/// The recorders, told of the same turns.
type Recorders = Both<TraceRecorder<Vec<u8>>, DigestRecorder>;

/// A run without input from its start to its end, and what its recorders wrote.
pub fn recorded(alloc: Global, program: &Program) -> Result<Answer, Failed> {
    let start = start_of(alloc, program, b"")?;
    let mut serial = start.recorded_by(Both {
        first: TraceRecorder::new(alloc, Vec::new(alloc)),
        second: DigestRecorder::new(alloc),
    });
    let status = run_to_end(&mut serial)?;
    answer_of(alloc, serial, status)
}

/// Does the turns of a run, and answers its status.
fn run_to_end(serial: &mut Serial<Recorders>) -> Result<u32, Failed> {
    for _ in 0..MOST_TURNS {
        if let Some(outcome) = one_turn(serial)? {
            return status_of(outcome);
        }
    }
    Err(Failed::Other)
}

/// The status of a run that ended so.
fn status_of(outcome: RunOutcome) -> Result<u32, Failed> {
    match outcome {
        RunOutcome::Exit(status) => Ok(status),
        _ => Err(Failed::Other),
    }
}

/// Does the next turn, or answers how the run ended.
fn one_turn(serial: &mut Serial<Recorders>) -> Result<Option<RunOutcome>, Failed> {
    match next(serial)? {
        Next::Turn(end) => {
            take(serial, end.as_ref())?;
            Ok(None)
        }
        Next::Ended(outcome) => Ok(Some(outcome)),
    }
}

/// What the next turn of a run is.
fn next(serial: &Serial<Recorders>) -> Result<Next, Failed>
    ensures { IfOk result (IsNext (point_of serial.now)) }
{
    let done = serial.done();
    again!(next_turn(serial), serial.done() == done)
}

/// Does a turn.
fn take(serial: &mut Serial<Recorders>, end: Option<&SegmentEnd>) -> Result<Turn, Failed>
    requires { IsNeeded serial.old (option_map (λ end. end.now) end) }
{
    let done = serial.done();
    again!(serial.turn(end), serial.done() == done)
}

/// What a run came to that ended with a status, and what its recorders wrote.
fn answer_of(alloc: Global, serial: Serial<Recorders>, status: u32) -> Result<Answer, Failed> {
    let (output, memory) = end_of(alloc, &serial)?;
    answer_by(alloc, serial.into_recorder(), status, &output, &memory)
}

/// A run's output and its memory.
fn end_of(alloc: Global, serial: &Serial<Recorders>) -> Result<(Vec<u8>, Snapshot), Failed> {
    let output = Vec::from_slice(alloc, serial.output())?;
    Ok((output, serial.now().try_clone()?))
}

/// What the recorders of a run wrote that ended with a status.
fn answer_by(
    alloc: Global,
    recorders: Recorders,
    status: u32,
    output: &[u8],
    memory: &Snapshot,
) -> Result<Answer, Failed> {
    let Both { first, second } = recorders;
    let (count, lines) = lines_of(first)?;
    let digest = second.finish(alloc, RunOutcome::Exit(status), output, memory)?;
    Ok(Answer {
        count,
        value: status,
        digest: mixed(lines, digest_of(digest.as_bytes())),
    })
}

/// How many bytes a trace has, and their digest.
fn lines_of(recorder: TraceRecorder<Vec<u8>>) -> Result<(u64, u64), Failed> {
    let mut trace = recorder;
    finish(&mut trace)?;
    let lines = trace.writer();
    Ok((lines.len() as u64, digest_of(lines.as_slice())))
}

/// Writes a trace out.
fn finish(trace: &mut TraceRecorder<Vec<u8>>) -> Result<(), Failed> {
    again!(trace.finish())
}
