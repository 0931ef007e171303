//! What records a text of a run, with the output that it goes to.
ghost use Rattle.std.specs.Prelude.{◌≡◌, ◌≤◌, ◌++◌, ◌∷◌, ℕ, List, [], IfErr, OnOk, length, option_map, true};
ghost use Rattle.abi.specs.Limits as limit;
ghost use Rattle.output_files.specs.Content.{Has};
ghost use Rattle.sharing_report.specs.Recording.{AreInOrder};
ghost use Rattle.token.specs.Change.{Change, addresses_by, change_by};
ghost use Rattle.token.specs.declared.turn.Turn.{Turn as TurnRecord};
ghost use Rattle.command_run.specs.Placing.{IsUnwrittenTo};
ghost use Rattle.command_run.specs.Recording as spec;
ghost use Rattle.command_run.specs.Recording.{IsReadyFor, IsTold, kind_of, writes_meanwhile};
ghost use Rattle.command_run.specs.Texts.{IsTextOf, left_by};

use crate::completing::{
    complete_core, complete_digest, complete_findings, complete_report, complete_timeline,
    complete_trace,
};
use crate::ended_run::EndedRun;
use command_requests::{Destination, Failure, Text};
use commit::Patch;
use run_digest::DigestRecorder;
use sharing_report::SharingRecorder;
use std::alloc::Global;
use std::io::Write;
use token::{Recorder, Turn, TurnFault};
use trace_events::TimelineRecorder;
use tracer::TraceRecorder;

/// What records a text, with the output that it goes to.
pub(crate) enum Recording<O> {
    /// The trace, which goes to its output as the turns are done.
    Trace(TraceRecorder<O>),
    /// The timeline, which goes to its output as the turns are done.
    Timeline(TimelineRecorder<O>),
    /// What the report is made of.
    Report(SharingRecorder, O),
    /// The findings are found by who does the turns.
    Findings(O),
    /// The core file is made of the end alone.
    Core(O),
    /// What the digest is made of.
    Digest(DigestRecorder, O),
}

impl<O: Write> Recording<O> {
    /// Records a text into an output that holds nothing. No turn was told yet.
    pub(crate) fn new(alloc: Global, text: Text, output: O) -> Self
        requires { Has O.contents output [] }
        ensures kind { kind_of result ≡ text }
        ensures told { IsTold O.contents [] [] result }
    {
        match text {
            Text::Trace => Recording::Trace(TraceRecorder::new(alloc, output)),
            Text::Timeline => Recording::Timeline(TimelineRecorder::new(alloc, output)),
            Text::Report => Recording::Report(SharingRecorder::new(alloc), output),
            Text::Findings => Recording::Findings(output),
            Text::Core => Recording::Core(output),
            Text::Digest => Recording::Digest(DigestRecorder::new(alloc), output),
        }
    }

    /// Prepares for a turn with this patch.
    pub(crate) fn prepare(&mut self, patch: Option<&Patch>) -> Result<(), TurnFault>
        ensures kind { kind_of self.new ≡ kind_of self.old }
        ensures ready { OnOk result (IsReadyFor (addresses_by (option_map (λ patch. patch.now) patch.entry)) self.new) }
        ensures kept { (turns : List TurnRecord) (changes : List Change) →
            IsTold O.contents turns changes self.old → IsTold O.contents turns changes self.new }
        ensures fault { IfErr result (λ fault. fault ≡ TurnFault.WriteFailed → writes_meanwhile (kind_of self.old) ≡ true) }
    {
        match self {
            Recording::Trace(trace) => trace.prepare(patch),
            Recording::Timeline(timeline) => timeline.prepare(patch),
            Recording::Report(sharing, _) => sharing.prepare(patch),
            Recording::Findings(_) | Recording::Core(_) => Ok(()),
            Recording::Digest(digest, _) => digest.prepare(patch),
        }
    }

    /// Records the turn that it is prepared for.
    pub(crate) fn record(&mut self, turn: Turn)
        requires { (addresses : List ℕ) × IsReadyFor addresses self.old }
        ensures kind { kind_of self.new ≡ kind_of self.old }
        ensures told { (addresses : List ℕ) (turns : List TurnRecord) (changes : List Change) → IsReadyFor addresses self.old →
            IsTold O.contents turns changes self.old →
            IsTold O.contents (turns ++ turn ∷ []) (changes ++ change_by turn addresses ∷ []) self.new }
    {
        match self {
            Recording::Trace(trace) => trace.record(turn),
            Recording::Timeline(timeline) => timeline.record(turn),
            Recording::Report(sharing, _) => sharing.record(turn),
            Recording::Findings(_) | Recording::Core(_) => {}
            Recording::Digest(digest, _) => digest.record(turn),
        }
    }

    /// Whether it writes as the turns are done.
    pub(crate) fn writes_meanwhile(&self) -> bool
        ensures { result ≡ writes_meanwhile (kind_of self.now) }
    {
        match self {
            Recording::Trace(_) | Recording::Timeline(_) => true,
            Recording::Report(..)
            | Recording::Findings(_)
            | Recording::Core(_)
            | Recording::Digest(..) => false,
        }
    }

    /// Whether it says that it has failed. A trace doesn't say it.
    pub(crate) fn has_failed(&self) -> bool
        ensures { result ≡ spec.has_failed self.now }
    {
        match self {
            Recording::Timeline(timeline) => timeline.failure().is_some(),
            Recording::Trace(_)
            | Recording::Report(..)
            | Recording::Findings(_)
            | Recording::Core(_)
            | Recording::Digest(..) => false,
        }
    }

    /// The output. What wasn't written is dropped.
    pub(crate) fn into_output(self) -> O {
        match self {
            Recording::Trace(trace) => trace.into_writer(),
            Recording::Timeline(timeline) => timeline.into_writer(),
            Recording::Report(_sharing, output) => output,
            Recording::Findings(output) | Recording::Core(output) => output,
            Recording::Digest(_digest, output) => output,
        }
    }

    /// Writes what isn't written yet of the text of a run that ended so, and answers the output.
    pub(crate) fn complete<'a>(
        self,
        alloc: Global,
        destination: Destination<'a>,
        ended: &EndedRun,
    ) -> (O, Result<(), Failure<'a>>)
        requires { length ended.now.end.threads.items ≤ limit.threads }
        ensures whole { OnOk result.1 ((turns : List TurnRecord) (changes : List Change)
            → IsTold O.contents turns changes self → AreInOrder changes
            → (text : List ℕ) × IsTextOf (kind_of self) (left_by turns changes ended.now) text × Has O.contents result.0 text) }
        ensures failed { IfErr result.1 (IsUnwrittenTo destination.entry) }
    {
        match self {
            Recording::Trace(trace) => complete_trace(trace, destination),
            Recording::Timeline(timeline) => complete_timeline(timeline, destination),
            Recording::Report(sharing, output) => {
                complete_report(alloc, sharing, output, destination)
            }
            Recording::Findings(output) => complete_findings(output, destination, ended),
            Recording::Core(output) => complete_core(alloc, output, destination, ended),
            Recording::Digest(digest, output) => {
                complete_digest(alloc, digest, output, destination, ended)
            }
        }
    }
}
