//! Replays of written schedules, over files.
ghost use Rattle.std.specs.Prelude.{◌≡◌, ◌+◌, IfErr, IfOk};
ghost use Rattle.output_files.specs.Taken.{TakesAtMost};
ghost use Rattle.abi.specs.Limits as limit;
ghost use Rattle.token.specs.RunInTurn.{point_of};
ghost use Rattle.command_line.specs.Replays.{AreOf, IsUnopened, Replays, asked};

use crate::given::read_given;
use crate::opened_replay::OpenedReplay;
use crate::replay_failure::ReplayFailure;
use crate::replaying::{go_through, read_events};
use command_run::open_bytes;
use output_files::Files;
use runtime::{Config, RunOutcome};
use std::alloc::Global;
use std::io::{Read, Write};

/// Applies the events of a schedule to a run of the program of a file, with the bytes of `stdin` as its input, and prints the
/// trace of the turns that were done. Answers how the run ended, or none where a turn may follow.
pub(crate) fn replay<'a, F: Files, R: Read, W: Write>(
    alloc: Global,
    file: &'a str,
    schedule: &'a str,
    config: &Config,
    files: &F,
    stdin: &mut R,
    stdout: &mut W,
) -> Result<Option<RunOutcome>, ReplayFailure<'a>>
    ensures input { TakesAtMost (limit.input + 1) (R.remaining stdin.old) (R.remaining stdin.new) }
    ensures answer { Replays (asked F.content files.now file.now schedule.now (R.remaining stdin.old) config.now)
        (W.contents stdout.old) (W.contents stdout.new) result }
{
    let opened = open_replay(alloc, file, schedule, config, files, stdin)?;
    go_through(alloc, opened, config.workers, stdout)
}

/// Reads the file, the input and the schedule, and opens the run, which is looked at last.
fn open_replay<'a, F: Files, R: Read>(
    alloc: Global,
    file: &'a str,
    schedule: &'a str,
    config: &Config,
    files: &F,
    stdin: &mut R,
) -> Result<OpenedReplay, ReplayFailure<'a>>
    ensures input { TakesAtMost (limit.input + 1) (R.remaining stdin.old) (R.remaining stdin.new) }
    ensures opened { IfOk result (λ opened. AreOf (asked F.content files.now file.now schedule.now (R.remaining stdin.old) config.now)
        (point_of opened.start).setup opened.events.items) }
    ensures start { IfOk result (λ opened. (point_of opened.start).done ≡ 0) }
    ensures failed { IfErr result (IsUnopened (asked F.content files.now file.now schedule.now (R.remaining stdin.old) config.now)) }
{
    let given = read_given(alloc, file, files, stdin)?;
    let events = read_events(alloc, schedule, files)?;
    let start = open_bytes(alloc, given.elf.as_slice(), given.input.as_slice(), config)?;
    Ok(OpenedReplay { start, events })
}
