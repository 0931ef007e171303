//! The command `run`: opens a file and its input, and runs them to their end.
ghost use Rattle.std.specs.Prelude.{◌≡◌, ◌+◌, [], IfErr, IfOk, OnErr, OnOk, false, is_some};
ghost use Rattle.std.specs.Io.KnownBytes.{Appends};
ghost use Rattle.output_files.specs.Content.{Content};
ghost use Rattle.output_files.specs.Taken.{TakesAtMost};
ghost use Rattle.abi.specs.Limits as limit;
ghost use Rattle.runtime.specs.Recorded.{Ends};
ghost use Rattle.runtime.specs.Sending.{CountsFailures, SendsSoFar};
ghost use Rattle.runtime.specs.declared.interruption.Interruption.TheVariants as stop;
ghost use Rattle.token.specs.RunInTurn.{point_of};
ghost use Rattle.command_run.specs.Recording.{HasWriting, wanted_by};
ghost use Rattle.observed_run.specs.Runs.{MayBegin};
ghost use Rattle.command_run.specs.Observing.{AreFound};
ghost use Rattle.command_run.specs.Serves.{AreRun, AreOpenedFrom, AreToldOf, IsOpenedFrom, IsReady, IsRefused, IsStopped, IsUnrun};

use crate::explaining::wanted_explaining;
use crate::item::Item;
use crate::items::{AreWanted, Items};
use crate::observing::{run_by, wanted_symbols};
use crate::opened_run::OpenedRun;
use crate::run_failure::{failure_of_interruption, failure_of_refusal};
use crate::unwritten::unwritten_destination;
use command_requests::{Failure, Target};
use elf32_reader::FILE_LIMIT;
use observed_run::ObservedRun;
use output_files::{Files, read_upto};
use races::Finding;
use runtime::{Config, MAX_INPUT, OpenFault, RecordedRun, RunEnd, Start, WriteSink, open_run};
use std::alloc::Global;
use std::io::{Read, Write};
use std::marker::Brand;
use std::sync::Wait;
use std::thread::Threads;

/// A run that was attempted: how it ended, or why it didn't, and its texts.
pub(crate) struct RunAttempt<'a, O> {
    /// How it ended, what it left, and its findings: none if they weren't wanted.
    pub(crate) result: Result<(RunEnd, Vec<Finding>), Failure<'a>>,
    /// The texts, which were told of each turn.
    pub(crate) items: Vec<Item<'a, O>>,
}

/// The run of the program of a file on the bytes of `stdin`, of which no turn is done, and the file's symbols if its findings are
/// wanted; and what its end is explained by, if that is wanted.
pub(crate) fn open_file<'a, F: Files, R: Read>(
    alloc: Global,
    file: &'a str,
    config: &Config,
    observes: bool,
    explains: bool,
    files: &F,
    stdin: &mut R,
) -> Result<OpenedRun, Failure<'a>>
    ensures input { TakesAtMost (limit.input + 1) (R.remaining stdin.old) (R.remaining stdin.new) }
    ensures ready { IfOk result (IsReady observes) }
    ensures explained { IfOk result (λ opened. is_some opened.explaining ≡ explains) }
    ensures opened { IfOk result (λ opened. AreRun (F.content files.now file.now) (R.remaining stdin.old)
        (AreOpenedFrom config.now opened)) }
    ensures failed { IfErr result (IsUnrun file.now (F.content files.now file.now) (R.remaining stdin.old) config.now) }
{
    let elf = match files.read(alloc, file, FILE_LIMIT) {
        Ok(elf) => elf,
        Err(fault) => return Err(Failure::of_read(Target::Path(file), fault)),
    };
    let input = match read_upto(alloc, stdin, MAX_INPUT) {
        Ok(input) => input,
        Err(fault) => return Err(Failure::of_read(Target::StandardInput, fault)),
    };
    open_all(
        alloc,
        elf.as_slice(),
        input.as_slice(),
        config,
        observes,
        explains,
    )
}

/// The run of the program that the bytes of a file are, the file's symbols if its findings are wanted, and what its end is explained by, if
/// that is wanted.
fn open_all<'a>(
    alloc: Global,
    elf: &[u8],
    input: &[u8],
    config: &Config,
    observes: bool,
    explains: bool,
) -> Result<OpenedRun, Failure<'a>>
    ensures ready { IfOk result (IsReady observes) }
    ensures explained { IfOk result (λ opened. is_some opened.explaining ≡ explains) }
    ensures opened { IfOk result (λ opened. AreOpenedFrom config.now opened elf.now input.now) }
    ensures failed { IfErr result (IsRefused elf.now input.now config.now) }
{
    let start = open_bytes(alloc, elf, input, config)?;
    let symbols = wanted_symbols(alloc, elf, observes)?;
    let explaining = wanted_explaining(alloc, elf, config, explains)?;
    Ok(OpenedRun {
        start,
        symbols,
        explaining,
    })
}

/// The run of the program that the bytes of a file are, of which no turn is done.
pub fn open_bytes<'a>(
    alloc: Global,
    elf: &[u8],
    input: &[u8],
    config: &Config,
) -> Result<Start, Failure<'a>>
    ensures opened { IfOk result (λ start. IsOpenedFrom config.now start elf.now input.now) }
    ensures output { IfOk result (λ start. (point_of start).state.output ≡ []) }
    ensures done { IfOk result (λ start. (point_of start).done ≡ 0) }
    ensures failed { IfErr result (IsRefused elf.now input.now config.now) }
{
    match open_run(alloc, elf, input, config) {
        Ok(start) => Ok(start),
        Err(OpenFault::Refused(refusal)) => Err(failure_of_refusal(refusal)),
        Err(OpenFault::OutOfMemory) => Err(Failure::OutOfMemory),
    }
}

/// Does all turns of a run, puts its output out, and tells the texts each turn. If its findings are wanted, they are found, and the calling
/// host thread does it all; else so many host threads at most do. A lost flush counts as a failure of `stdout`.
pub(crate) fn run_start<'a, H: Threads + Wait + Sync, O: Write, W: Write>(
    rt: &H,
    alloc: Global,
    start: Start,
    workers: u32,
    observes: bool,
    items: Vec<Item<'a, O>>,
    stdout: &mut WriteSink<W>,
) -> RunAttempt<'a, O>
    requires may { MayBegin (AreToldOf O.contents) (λ sink. sink.failures) start stdout.old items }
    ensures ended { IfOk result.result (λ ended. Ends (AreToldOf O.contents) (point_of start).setup ended.0 result.items) }
    ensures findings { IfOk result.result (λ ended. AreFound observes (point_of start).setup ended.1.items) }
    ensures same { wanted_by result.items.items ≡ wanted_by items.entry.items }
    ensures sent { IfOk result.result (λ ended.
        Appends (W.contents stdout.old.writer) (W.contents stdout.new.writer) ended.0.output.items) }
    ensures whole { OnOk result.result (stdout.new.is_lost ≡ false) }
    ensures stopped { IfErr result.result (λ failure. (files files' : Content)
        → IsStopped (wanted_by items.entry.items) (point_of start).setup
        (record { files = files; output = W.contents stdout.old.writer; failures = stdout.old.failures })
        (record { files = files'; output = W.contents stdout.new.writer; failures = stdout.new.failures }) failure) }
{
    let ObservedRun { run, findings } = run_wanted::<Brand, _, _, _>(
        rt, alloc, start, workers, observes, items, stdout,
    );
    let RecordedRun { result, recorder } = run;
    let result = match result {
        Ok(end) => match stdout.finish() {
            Ok(()) => Ok((end, findings)),
            Err(_) => {
                stdout.failures += 1;
                Err(Failure::CannotWrite(Target::StandardOutput))
            }
        },
        Err(interruption) => {
            let destination = unwritten_destination(recorder.as_slice());
            Err(failure_of_interruption(interruption, destination))
        }
    };
    RunAttempt {
        result,
        items: recorder,
    }
}

/// Does all turns of a run, and tells the texts each. At the end it is known that they are the same texts.
fn run_wanted<'a, B: AreWanted, H: Threads + Wait + Sync, O: Write, W: Write>(
    rt: &H,
    alloc: Global,
    start: Start,
    workers: u32,
    observes: bool,
    items: Vec<Item<'a, O>>,
    stdout: &mut WriteSink<W>,
) -> ObservedRun<Vec<Item<'a, O>>>
    requires may { MayBegin (AreToldOf O.contents) (λ sink. sink.failures) start stdout.old items }
    requires wanted { wanted_by items.items ≡ B.wanted }
    ensures ended { IfOk result.run.result (λ end. Ends (AreToldOf O.contents) (point_of start).setup end result.run.recorder) }
    ensures findings { IfOk result.run.result (λ end. AreFound observes (point_of start).setup result.findings.items) }
    ensures none { OnErr result.run.result (result.findings.items ≡ []) }
    ensures same { wanted_by result.run.recorder.items ≡ B.wanted }
    ensures sent { SendsSoFar (point_of start).setup result.run.result (W.contents stdout.old.writer) (W.contents stdout.new.writer) }
    ensures failures { CountsFailures stop.WriteFailed result.run.result stdout.old.failures stdout.new.failures }
    ensures writes { IfErr result.run.result (λ interruption. interruption ≡ stop.RecordFailed → HasWriting B.wanted) }
{
    let all = Items::<'a, B, O>::new(items);
    let ObservedRun { run, findings } = run_by(rt, alloc, start, workers, observes, stdout, all);
    let RecordedRun { result, recorder } = run;
    let recorder = recorder.into_items();
    ObservedRun {
        run: RecordedRun { result, recorder },
        findings,
    }
}
