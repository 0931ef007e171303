//! Replays of written schedules, of runs that were opened.
ghost use Rattle.std.specs.Prelude.{◌≡◌, ℕ, ◌<◌, ◌≤◌, List, IfErr, IfOk, OnOk};
ghost use Rattle.std.specs.Io.KnownBytes.{Appends};
ghost use Rattle.abi.specs.Limits as limit;
ghost use Rattle.schedule_core.specs.Scene.{point_at};
ghost use Rattle.token.specs.RunInTurn.{point_of};
ghost use Rattle.command_line.specs.Replayed.{IsCut, IsPrinted, IsReplayed, IsUnprinted};
ghost use Rattle.command_line.specs.Scheduled.{AreScheduled, IsUnscheduled};
ghost use Rattle.command_line.specs.Status.{replay_status};

use crate::opened_replay::OpenedReplay;
use crate::replay_failure::ReplayFailure;
use command_requests::{Failure, Target, print};
use command_run::conclude;
use output_files::Files;
use schedule::Event;
use schedule_core::World;
use schedule_text::{ParseFault, parse};
use std::alloc::Global;
use std::io::Write;
use token::RunOutcome;
use tracer::trace_text;

/// How many bytes a schedule has at most.
const SCHEDULE_LIMIT: usize = 16_777_216;

/// The status of a replay that ends before the run does.
const OPEN: u8 = 122;

/// Reads the events of the schedule at a path.
pub(crate) fn read_events<'a, F: Files>(
    alloc: Global,
    path: &'a str,
    files: &F,
) -> Result<Vec<Event>, ReplayFailure<'a>>
    ensures events { IfOk result (λ events. AreScheduled (F.content files.now path.now) events.items) }
    ensures failed { IfErr result (IsUnscheduled path.now (F.content files.now path.now)) }
{
    let text = match files.read(alloc, path, SCHEDULE_LIMIT) {
        Ok(text) if text.len() <= SCHEDULE_LIMIT => text,
        Ok(_) => return Err(Failure::CannotRead(Target::Path(path)).into()),
        Err(fault) => return Err(Failure::of_read(Target::Path(path), fault).into()),
    };
    match parse(alloc, text.as_slice()) {
        Ok(events) => Ok(events),
        Err(ParseFault::NotAnEvent { line }) => Err(ReplayFailure::NotAnEvent { line }),
        Err(ParseFault::OutOfMemory) => Err(Failure::OutOfMemory.into()),
    }
}

/// Applies events to a run of which no turn is done, and prints the trace of the turns that were done, also where an event is
/// refused.
pub(crate) fn go_through<'a, W: Write>(
    alloc: Global,
    opened: OpenedReplay,
    workers: u32,
    stdout: &mut W,
) -> Result<Option<RunOutcome>, ReplayFailure<'a>>
    requires few { workers ≤ limit.workers }
    requires some { 0 < workers }
    ensures replayed { IfOk result (λ ended. (text : List ℕ)
        × IsReplayed (point_of opened.start).setup workers opened.events.items ended text
        × Appends (W.contents stdout.old) (W.contents stdout.new) text) }
    ensures cut { IfErr result (IsCut (point_of opened.start).setup workers opened.events.items
        (W.contents stdout.old) (W.contents stdout.new)) }
{
    let mut world = World::of_start(alloc, opened.start, workers)?;
    let applied = world.apply_all(opened.events.as_slice());
    print_trace(alloc, &world, stdout)?;
    match applied {
        Ok(()) => Ok(world.outcome()),
        Err(refused) => Err(ReplayFailure::of_refused(refused)),
    }
}

/// Prints the trace of the turns that were done.
fn print_trace<'a, W: Write>(
    alloc: Global,
    world: &World,
    stdout: &mut W,
) -> Result<(), Failure<'a>>
    ensures printed { OnOk result (IsPrinted (point_at world.now) (W.contents stdout.old) (W.contents stdout.new)) }
    ensures failed { IfErr result (IsUnprinted (W.contents stdout.old) (W.contents stdout.new)) }
{
    let text = trace_text(alloc, world.turns())?;
    match print(text.as_bytes(), stdout) {
        Ok(()) => Ok(()),
        Err(_) => Err(Failure::CannotWrite(Target::StandardOutput)),
    }
}

/// Says how a replay ended, where there is more to say than its status, and answers the status.
pub(crate) fn conclude_replay<E: Write>(
    answer: Result<Option<RunOutcome>, ReplayFailure<'_>>,
    stderr: &mut E,
) -> u8
    ensures { result ≡ replay_status answer.entry }
{
    match answer {
        Ok(Some(outcome)) => conclude(Ok(outcome), stderr),
        Ok(None) => {
            let _ = writeln!(stderr, "open");
            OPEN
        }
        Err(failure) => {
            let _ = writeln!(stderr, "{failure}");
            failure.status()
        }
    }
}
