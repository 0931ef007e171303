//! A text of a run under way: begun, told of each turn, and put where it is to be or taken away.
ghost use Rattle.std.specs.Prelude.{◌≡◌, ◌≤◌, ◌++◌, ◌∷◌, ℕ, List, [], IfErr, IfOk, OnOk, length, option_map, true};
ghost use Rattle.abi.specs.Limits as limit;
ghost use Rattle.output_files.specs.Content.{Has, Tells};
ghost use Rattle.sharing_report.specs.Recording.{AreInOrder};
ghost use Rattle.token.specs.Change.{Change, addresses_by, change_by};
ghost use Rattle.token.specs.declared.turn.Turn.{Turn as TurnRecord};
ghost use Rattle.command_requests.specs.Destination.{KeepsBut};
ghost use Rattle.command_run.specs.Placing.{IsPut, IsUnbegunFor, IsUnwrittenTo, KeepsUnlessPrinted};
ghost use Rattle.command_run.specs.Recording.{IsReadyFor, IsTold, kind_of, wanted_of, writes_meanwhile};
ghost use Rattle.command_run.specs.Texts.{IsTextOf, left_by};

use crate::ended_run::EndedRun;
use crate::placing::{abandon_output, begin_output, publish};
use crate::recording::Recording;
use command_requests::{Destination, Failure, RequestedText};
use commit::Patch;
use output_files::Files;
use std::alloc::Global;
use std::io::Write;
use std::marker::PhantomData;
use token::{Turn, TurnFault};
use trace_events::TimelineRecorder;
use tracer::TraceRecorder;

/// A text under way.
pub(crate) struct Item<'a, O> {
    /// Where it goes.
    pub(crate) destination: Destination<'a>,
    /// What records it.
    pub(crate) recording: Recording<O>,
    /// Names the types of other crates that the enum holds, without which the check makes no proof of what takes an item by value.
    named: PhantomData<(TraceRecorder<O>, TimelineRecorder<O>)>,
}

impl<'a, O: Write> Item<'a, O> {
    /// Where it goes, and its output. What wasn't written is dropped.
    pub(crate) fn into_output(self) -> (Destination<'a>, O)
        ensures { result.0 ≡ self.entry.destination }
    {
        let Item {
            destination,
            recording,
            named: _named,
        } = self;
        (destination, recording.into_output())
    }

    /// Prepares for a turn with this patch.
    pub(crate) fn prepare(&mut self, patch: Option<&Patch>) -> Result<(), TurnFault>
        ensures wanted { wanted_of self.new ≡ wanted_of self.old }
        ensures ready { OnOk result (IsReadyFor (addresses_by (option_map (λ patch. patch.now) patch.entry)) self.new.recording) }
        ensures kept { (turns : List TurnRecord) (changes : List Change) →
            IsTold O.contents turns changes self.old.recording → IsTold O.contents turns changes self.new.recording }
        ensures fault { IfErr result (λ fault. fault ≡ TurnFault.WriteFailed → writes_meanwhile (wanted_of self.old).text ≡ true) }
    {
        self.recording.prepare(patch)
    }

    /// Records the turn that it is prepared for.
    pub(crate) fn record(&mut self, turn: Turn)
        requires { (addresses : List ℕ) × IsReadyFor addresses self.old.recording }
        ensures wanted { wanted_of self.new ≡ wanted_of self.old }
        ensures told { (addresses : List ℕ) (turns : List TurnRecord) (changes : List Change) → IsReadyFor addresses self.old.recording →
            IsTold O.contents turns changes self.old.recording →
            IsTold O.contents (turns ++ turn ∷ []) (changes ++ change_by turn addresses ∷ []) self.new.recording }
    {
        self.recording.record(turn);
    }

    /// Writes what isn't written yet of the text of a run that ended so.
    fn complete(self, alloc: Global, ended: &EndedRun) -> Completed<'a, O>
        requires { length ended.now.end.threads.items ≤ limit.threads }
        ensures destination { result.destination ≡ self.entry.destination }
        ensures whole { OnOk result.result ((turns : List TurnRecord) (changes : List Change)
            → IsTold O.contents turns changes self.entry.recording → AreInOrder changes
            → (text : List ℕ) × IsTextOf (kind_of self.entry.recording) (left_by turns changes ended.now) text
            × Has O.contents result.output text) }
        ensures failed { IfErr result.result (IsUnwrittenTo self.entry.destination) }
    {
        let Item {
            destination,
            recording,
            named: _named,
        } = self;
        let (output, result) = recording.complete(alloc, destination, ended);
        Completed {
            destination,
            output,
            result,
        }
    }
}

/// An output into which a text was written, or why it wasn't.
struct Completed<'a, O> {
    /// Where it goes.
    destination: Destination<'a>,
    /// The output.
    output: O,
    /// Why not all of the text is in it, if so.
    result: Result<(), Failure<'a>>,
}

/// Begins a text that is wanted.
pub(crate) fn begin_item<'a, F: Files>(
    alloc: Global,
    wanted: RequestedText<'a>,
    files: &mut F,
) -> Result<Item<'a, F::Output>, Failure<'a>>
    ensures wanted { IfOk result (λ item. wanted_of item ≡ wanted.entry) }
    ensures told { IfOk result (λ item. IsTold F.Output.contents [] [] item.recording) }
    ensures kept { KeepsBut [] (wanted.entry.destination ∷ []) (F.content files.old) (F.content files.new) }
    ensures failed { IfErr result (IsUnbegunFor wanted.entry.destination) }
{
    match begin_output(alloc, wanted.destination, files) {
        Ok(output) => Ok(Item {
            destination: wanted.destination,
            recording: Recording::new(alloc, wanted.text, output),
            named: PhantomData,
        }),
        Err(failure) => Err(failure),
    }
}

/// Puts the text of a run that ended so where it is to be.
pub(crate) fn finish_item<'a, F: Files, W: Write>(
    alloc: Global,
    item: Item<'a, F::Output>,
    ended: &EndedRun,
    files: &mut F,
    writer: &mut W,
) -> Result<(), Failure<'a>>
    requires { length ended.now.end.threads.items ≤ limit.threads }
    ensures put { OnOk result ((turns : List TurnRecord) (changes : List Change)
        → IsTold F.Output.contents turns changes item.entry.recording → AreInOrder changes
        → (text : List ℕ) × IsTextOf (wanted_of item.entry).text (left_by turns changes ended.now) text
        × IsPut (Tells F.Output.contents) item.entry.destination text (F.content files.new)
        (W.contents writer.old) (W.contents writer.new)) }
    ensures others { KeepsBut (item.entry.destination ∷ []) [] (F.content files.old) (F.content files.new) }
    ensures failed { IfErr result (IsUnwrittenTo item.entry.destination) }
    ensures kept { IfErr result (λ failure. KeepsUnlessPrinted item.entry.destination (W.contents writer.old) (W.contents writer.new)) }
{
    let Completed {
        destination,
        output,
        result,
    } = item.complete(alloc, ended);
    match result {
        Ok(()) => publish(destination, output, files, writer),
        Err(failure) => {
            abandon_output(destination, output, files);
            Err(failure)
        }
    }
}

/// Takes away what was begun for a text.
pub(crate) fn abandon_item<F: Files>(item: Item<'_, F::Output>, files: &mut F)
    ensures { KeepsBut [] (item.entry.destination ∷ []) (F.content files.old) (F.content files.new) }
{
    let (destination, output) = item.into_output();
    abandon_output(destination, output, files);
}
