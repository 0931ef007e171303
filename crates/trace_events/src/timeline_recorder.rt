//! A recorder that writes the timeline to a writer as turns are done, through a bounded buffer.
ghost use Rattle.std.specs.Prelude.{◌≡◌, List, [], None, OnOk};

use crate::outlet::Outlet;
use crate::pages::changed_pages;
use crate::recorded_turn::RecordedTurn;
use crate::run_progress::RunProgress;
use commit::Patch;
use std::alloc::Global;
use std::io::Write;
use token::{Recorder, Turn, TurnFault};

/// So many bytes of events are written at once.
const FULL: usize = 8192;

/// Writes the timeline, event by event, to a writer, through a buffer of bounded size. The events of the last turn are
/// made when the next one is prepared, or at the end, so that telling a turn needs no memory and no write.
#[derive(Drop)]
pub struct TimelineRecorder<W> {
    alloc: Global,
    /// Where the events go.
    outlet: Outlet<W>,
    /// What is known after the turns whose events are made.
    progress: RunProgress,
    /// The turn whose events aren't made yet.
    last: Option<RecordedTurn>,
    /// How many pages the turn changed that it is prepared for.
    pages: u64,
    /// Where the events of a turn are made.
    line: String,
    /// Why it records nothing any more.
    failure: Option<TurnFault>,
}

impl<W: Write> TimelineRecorder<W> {
    ghost use Rattle.token.specs.Change.{Change};
    ghost use Rattle.token.specs.declared.turn.Turn.{Turn as TurnRecord};
    ghost use Rattle.tracer.specs.Recording.{Holds};
    ghost use Rattle.trace_events.specs.Recording.{KeepsRecords, Records};
    ghost use Rattle.trace_events.specs.Timeline.{timeline_text};

    /// A recorder that has recorded no turn, and writes to this writer, which holds nothing yet.
    pub fn new(alloc: Global, writer: W) -> Self
        requires { Holds W.contents writer [] }
        ensures { Records W.contents result [] [] }
    {
        TimelineRecorder {
            alloc,
            outlet: Outlet::new(alloc, writer),
            progress: RunProgress::new(alloc),
            last: None,
            pages: 0,
            line: String::new(alloc),
            failure: None,
        }
    }

    /// Writes out what isn't written yet and the end of the file, and flushes the writer. Then it holds the timeline of
    /// the turns that were recorded. Nothing is to be recorded after that.
    ///
    /// # Errors
    ///
    /// Out of memory, a write that failed, or what made an earlier call fail.
    pub fn finish(&mut self) -> Result<(), TurnFault>
        ensures { OnOk result ((turns : List TurnRecord) (changes : List Change) → Records W.contents self.old turns changes →
            Holds W.contents self.new.outlet.writer (timeline_text turns changes)) }
    {
        self.make()?;
        self.line.clear();
        self.progress.write_ending(&mut self.line)?;
        self.outlet.push(self.line.as_str())?;
        self.outlet.send()?;
        self.outlet.flush()
    }

    /// Why it records nothing any more, if so.
    pub fn failure(&self) -> Option<TurnFault>
        ensures { result ≡ self.now.failure }
    {
        self.failure
    }

    /// What the events are written to. Those that weren't written are dropped.
    pub fn into_writer(self) -> W
        ensures { result ≡ self.outlet.writer }
    {
        self.outlet.into_writer()
    }

    /// Makes the events of the last turn.
    fn make(&mut self) -> Result<(), TurnFault>
        ensures kept { KeepsRecords W.contents self.old self.new }
        ensures made { OnOk result (self.new.last ≡ None) }
        ensures whole { OnOk result (self.new.failure ≡ None) }
    {
        if let Some(failure) = self.failure {
            return Err(failure);
        }
        if let Some(entry) = self.last {
            // Until they are made whole.
            self.failure = Some(TurnFault::OutOfMemory);
            let timed = self.progress.timed(entry)?;
            self.line.clear();
            self.progress.write(&mut self.line, &timed)?;
            self.outlet.push(self.line.as_str())?;
            self.progress.add(timed)?;
            self.failure = None;
            self.last = None;
        }
        Ok(())
    }

    /// Writes out what is buffered where that is much.
    fn send(&mut self) -> Result<(), TurnFault>
        ensures kept { KeepsRecords W.contents self.old self.new }
        ensures last { self.new.last ≡ self.old.last }
        ensures failure { OnOk result (self.new.failure ≡ self.old.failure) }
    {
        if self.outlet.len() >= FULL {
            if let Err(fault) = self.outlet.send() {
                self.failure = Some(fault);
                return Err(fault);
            }
        }
        Ok(())
    }
}

impl<W: Write> Recorder for TimelineRecorder<W> {
    ghost use Rattle.trace_events.specs.Pages.{page_count};
    ghost use Rattle.trace_events.specs.Recording.{Records};

    ghost records = { λ recorder turns changes. Records W.contents recorder turns changes };

    ghost is_ready = { λ recorder addresses. (recorder.last ≡ None) × (recorder.pages ≡ page_count addresses) };

    ghost writes = { Unit {0} };

    /// Makes the events of the turn before, and writes out what is buffered where that is much.
    fn prepare(&mut self, patch: Option<&Patch>) -> Result<(), TurnFault> {
        self.make()?;
        self.send()?;
        self.pages = changed_pages(self.alloc, patch)?;
        Ok(())
    }

    fn record(&mut self, turn: Turn) {
        self.last = Some(RecordedTurn {
            turn,
            pages: self.pages,
        });
    }
}
