//! Does the commands.
ghost use Rattle.std.specs.Prelude.{OnOk};
ghost use Rattle.timeline.specs.Line.{SameRun};
ghost use Rattle.gdb_monitor.specs.Searching.{Stays};

use crate::command::Command;
use crate::searching::{existing, step_of};
use crate::texts::{locks_text, position_text, shared_text, thread_line};
use crate::trace::say_trace;
use crate::writers::say_writers;
use std::alloc::{AllocError, Global};
use timeline::Timeline;

/// The list of the commands.
const HELP: &[u8] = b"where              the position (also: when)
turn N [K]         the next resume goes to turn N, K instructions into it
go STEP            the next resume goes to this step
trace [A [B]]      the trace up to here, or its lines A to B
threads            what each thread does, and which memory it shows
locks              who holds mutexes, and who waits at conditions and barriers
writers ADDR [N]   the turns so far that changed one of these bytes
shared ADDR [N]    the shared memory
output             what the guest has written up to here
help               this list
";

/// Does a command, with so many threads listed, and adds what it has to say to a text. Answers the step to which the next
/// resume is to go, if the command chooses one.
pub fn perform_command(
    alloc: Global,
    said: &mut Vec<u8>,
    timeline: &mut Timeline,
    listed: u32,
    command: Command,
) -> Result<Option<u64>, AllocError>
    ensures run { SameRun timeline.old timeline.new }
    ensures stays { OnOk result (Stays timeline.old timeline.new) }
{
    match command {
        Command::Turn { turn, count } => {
            let step = step_of(timeline, turn, count)?;
            choose(alloc, said, step)
        }
        Command::Go(step) => {
            let step = existing(timeline, step)?;
            choose(alloc, said, step)
        }
        _ => {
            tell(alloc, said, timeline, listed, command)?;
            Ok(None)
        }
    }
}

/// Says what a command asks for that chooses no position.
fn tell(
    alloc: Global,
    said: &mut Vec<u8>,
    timeline: &Timeline,
    listed: u32,
    command: Command,
) -> Result<(), AllocError> {
    match command {
        Command::Help => said.extend_from_slice(HELP),
        Command::Where => said.extend_from_slice(position_text(alloc, timeline)?.as_bytes()),
        Command::Trace { first, last } => say_trace(alloc, said, timeline, first, last),
        Command::Threads => say_threads(alloc, said, timeline, listed),
        Command::Locks => said.extend_from_slice(locks_text(alloc, timeline)?.as_bytes()),
        Command::Writers(span) => say_writers(alloc, said, timeline, span),
        Command::Shared(span) => said.extend_from_slice(shared_text(
            alloc, timeline, span,
        )?.as_bytes()),
        Command::Output => said.extend_from_slice(timeline.serial().output()),
        Command::NoNumber => said.extend_from_slice(b"dthreads: not a number\n"),
        Command::Turn { .. } | Command::Go(_) | Command::Unknown => {
            said.extend_from_slice(b"dthreads: no such command; monitor help lists them\n")
        }
    }
}

/// Says what each listed thread does, and which memory it shows.
fn say_threads(
    alloc: Global,
    said: &mut Vec<u8>,
    timeline: &Timeline,
    listed: u32,
) -> Result<(), AllocError> {
    for thread in 0..listed {
        said.extend_from_slice(thread_line(alloc, timeline, thread)?.as_bytes())?;
    }
    Ok(())
}

/// Says whether a position was chosen for the next resume.
fn choose(alloc: Global, said: &mut Vec<u8>, step: Option<u64>) -> Result<Option<u64>, AllocError> {
    match step {
        Some(step) => {
            let line = format!(in alloc; "the next resume goes to step {step}\n")?;
            said.extend_from_slice(line.as_bytes())?;
        }
        None => said.extend_from_slice(b"no such position\n")?,
    }
    Ok(step)
}
