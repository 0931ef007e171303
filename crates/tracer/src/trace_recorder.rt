//! A recorder that writes the trace to a writer as turns are done, through a bounded buffer.
ghost use Rattle.std.specs.Prelude.{◌≡◌, ◌≤◌, List, [], None, OnOk, length};
ghost use Rattle.std.specs.String.{string_bytes};

use crate::turn_line::write_line;
use commit::Patch;
use std::alloc::Global;
use std::io::Write;
use text_output::write_some;
use token::{Recorder, Turn, TurnFault};

/// So many bytes of lines are written at once.
const FULL: usize = 8192;

/// Writes the trace, line by line, to a writer, through a buffer of bounded size. The line of the last turn is made
/// when the next one is prepared, or at the end, so that telling a turn needs no memory and no write.
#[derive(Drop)]
pub struct TraceRecorder<W> {
    /// What the lines are written to.
    writer: W,
    /// The lines that were made and aren't all written.
    lines: String,
    /// How many bytes of them are written.
    sent: usize,
    /// The turn whose line isn't made yet.
    last: Option<Turn>,
    /// Where a line is made.
    line: String,
    ghost within: { sent ≤ length (string_bytes lines) },
}

impl<W: Write> TraceRecorder<W> {
    ghost use Rattle.tracer.specs.Recording.{Holds, KeepsText, Traces, line_at, unwritten};
    ghost use Rattle.tracer.specs.TraceText.{text_of};
    ghost use Rattle.token.specs.declared.turn.Turn.{Turn as TurnRecord};

    /// A recorder that has recorded no turn, and writes to this writer, which holds nothing yet.
    pub fn new(alloc: Global, writer: W) -> Self
        requires { Holds W.contents writer [] }
        ensures { Traces W.contents result [] }
    {
        TraceRecorder {
            writer,
            lines: String::new(alloc),
            sent: 0,
            last: None,
            line: String::new(alloc),
        }
    }

    /// Writes out what isn't written yet, and flushes the writer. Then it holds the text of the turns that were
    /// recorded. Where that fails nothing is lost: the writer has a prefix of the text, and the rest is kept.
    pub fn finish(&mut self) -> Result<(), TurnFault>
        ensures kept { (turns : List TurnRecord) → Traces W.contents self.old turns → Traces W.contents self.new turns }
        ensures whole { OnOk result ((turns : List TurnRecord) →
            Traces W.contents self.old turns → Holds W.contents self.new.writer (text_of turns)) }
    {
        self.make_line()?;
        self.send()?;
        match self.writer.flush() {
            Ok(()) => Ok(()),
            Err(_) => Err(TurnFault::WriteFailed),
        }
    }

    /// What the lines are written to.
    pub fn writer(&self) -> &W
        ensures { result.now ≡ self.now.writer }
    {
        &self.writer
    }

    /// What the lines are written to. Lines that weren't written are dropped.
    pub fn into_writer(self) -> W
        ensures { result ≡ self.writer }
    {
        self.writer
    }

    /// Makes the line of the last turn.
    fn make_line(&mut self) -> Result<(), TurnFault>
        ensures kept { KeepsText W.contents self.old self.new }
        ensures made { OnOk result (self.new.last ≡ None) }
    {
        if let Some(turn) = self.last {
            self.line.clear();
            write_line(&mut self.line, &turn)?;
            self.lines.push_str(self.line.as_str())?;
            self.last = None;
        }
        Ok(())
    }

    /// Writes the lines that were made.
    fn send(&mut self) -> Result<(), TurnFault>
        ensures kept { KeepsText W.contents self.old self.new }
        ensures last { self.new.last ≡ self.old.last }
        ensures sent { OnOk result (unwritten self.new ≡ line_at self.new.last) }
    {
        'pieces: while self.sent < self.lines.len() {
            match write_some(&mut self.writer, &self.lines.as_bytes()[self.sent..]) {
                Ok(count) => self.sent += count,
                Err(_) => return Err(TurnFault::WriteFailed),
            }
        }
        self.sent = 0;
        self.lines.clear();
        Ok(())
    }
}

impl<W: Write> Recorder for TraceRecorder<W> {
    ghost use Rattle.std.specs.Prelude.{◌<◌, IfErr};
    ghost use Rattle.tracer.specs.Recording.{Traces, unwritten};
    ghost use Rattle.token.specs.Change.{Change};
    ghost use Rattle.token.specs.declared.turn.Turn.{Turn as TurnRecord};

    ghost records = { λ recorder turns changes. Traces W.contents recorder turns };

    ghost is_ready = { λ recorder addresses. recorder.last ≡ None };

    ghost writes = { Unit {0} };

    /// Writes out what is buffered where that is much. Then fewer than 8,192 bytes are kept.
    fn prepare(&mut self, _patch: Option<&Patch>) -> Result<(), TurnFault>
        ensures ready { OnOk result (self.new.last ≡ None) }
        ensures kept { (turns : List TurnRecord) (changes : List Change) →
            Traces W.contents self.old turns → Traces W.contents self.new turns }
        ensures fault { IfErr result (λ fault. fault ≡ TurnFault.WriteFailed → Unit {0}) }
        ensures few { OnOk result (length (unwritten self.new) < 8192) }
    {
        self.make_line()?;
        if self.lines.len() >= FULL {
            self.send()?;
        }
        Ok(())
    }

    fn record(&mut self, turn: Turn) {
        self.last = Some(turn);
    }
}
