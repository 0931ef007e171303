//! A sink over any writer. Flushes each piece, and counts its failures.
ghost use Rattle.std.specs.Prelude.{◌≡◌, ◌<◌, false, length, IfOk, OnOk};
ghost use Rattle.std.specs.Io.{WritesAtMost};
ghost use Rattle.std.specs.Io.KnownBytes.{Appends, Keeps, WriteAppends};

use crate::sink::{Sink, SinkFault};
use std::io::Write;
use text_output::write_some;

/// A sink of a writer. Each piece is flushed, so that it stands where the writer writes to while the run goes on.
/// It tells its bytes where the writer knows them.
#[derive(Drop)]
pub struct WriteSink<W> {
    /// What the bytes are written to.
    pub writer: W,
    /// How often it didn't take a piece.
    pub failures: u64,
    /// Whether a flush failed. Then it takes no further piece.
    is_lost: bool,
}

impl<W: Write> WriteSink<W> {
    /// The sink that writes to this writer, and hasn't failed.
    pub fn new(writer: W) -> Self
        ensures writer { result.writer ≡ writer }
        ensures failures { result.failures ≡ 0 }
        ensures lost { result.is_lost ≡ false }
    {
        WriteSink {
            writer,
            failures: 0,
            is_lost: false,
        }
    }

    /// Flushes what was written. It fails if this or an earlier flush did.
    pub fn finish(&mut self) -> Result<(), SinkFault>
        ensures bytes { Keeps (W.contents self.old.writer) (W.contents self.new.writer) }
        ensures whole { OnOk result (self.old.is_lost ≡ false) }
        ensures others { (self.new.failures ≡ self.old.failures) × (self.new.is_lost ≡ self.old.is_lost) }
    {
        match self.writer.flush() {
            Ok(()) if !self.is_lost => Ok(()),
            Ok(()) | Err(_) => Err(SinkFault),
        }
    }

    /// Writes a prefix of these bytes, flushes it and answers its length, at least 1 where there are any
    /// bytes. A write that a signal interrupts is made again.
    fn write_piece(&mut self, bytes: &[u8]) -> Result<usize, SinkFault>
        ensures within { WritesAtMost result bytes.now }
        ensures some { IfOk result (λ count. 0 < count) }
        ensures bytes { WriteAppends (W.contents self.old.writer) (W.contents self.new.writer) result bytes.now }
        ensures failures { self.new.failures ≡ self.old.failures }
        ensures whole { OnOk result (self.old.is_lost ≡ false) }
    {
        if self.is_lost {
            return Err(SinkFault);
        }
        let Ok(count) = write_some(&mut self.writer, bytes) else {
            return Err(SinkFault);
        };
        self.is_lost = self.writer.flush().is_err();
        Ok(count)
    }
}

impl<W: Write> Sink for WriteSink<W> {
    ghost taken = { λ sink. W.contents sink.writer };

    ghost failed = { λ sink. sink.failures };

    fn put(&mut self, bytes: &[u8]) -> Result<usize, SinkFault> {
        let written = self.write_piece(bytes);
        if written.is_err() {
            self.failures += 1;
        }
        written
    }

    fn failures(&self) -> u64 {
        self.failures
    }
}
