//! A text on its way to a writer, through a bounded buffer.
ghost use Rattle.std.specs.Prelude.{◌≡◌, ◌≤◌, ◌++◌, List, [], ℕ, OnOk, length};
ghost use Rattle.std.specs.String.{string_bytes};

use std::alloc::{AllocError, Global};
use std::io::Write;
use text_output::write_some;
use token::TurnFault;

/// A text on its way to a writer.
#[derive(Drop)]
pub struct Outlet<W> {
    /// Where it goes.
    writer: W,
    /// What was made and isn't all written.
    text: String,
    /// How many bytes of it are written.
    sent: usize,
    ghost within: { sent ≤ length (string_bytes text) },
}

impl<W: Write> Outlet<W> {
    ghost use Rattle.trace_events.specs.Recording.{Sends};
    ghost use Rattle.tracer.specs.Recording.{Holds};

    /// An empty text, for a writer that holds nothing yet.
    pub(crate) fn new(alloc: Global, writer: W) -> Self
        requires { Holds W.contents writer [] }
        ensures { Sends W.contents result [] }
    {
        Outlet {
            writer,
            text: String::new(alloc),
            sent: 0,
        }
    }

    /// Appends to the text.
    pub(crate) fn push(&mut self, more: &str) -> Result<(), AllocError>
        ensures { OnOk result ((text : List ℕ) → Sends W.contents self.old text → Sends W.contents self.new (text ++ more.now)) }
    {
        self.text.push_str(more)?;
        Ok(())
    }

    /// How many bytes were made and are kept.
    pub(crate) fn len(&self) -> usize {
        self.text.len()
    }

    /// Flushes the writer.
    pub(crate) fn flush(&mut self) -> Result<(), TurnFault>
        ensures { (text : List ℕ) → Holds W.contents self.old.writer text → Holds W.contents self.new.writer text }
    {
        match self.writer.flush() {
            Ok(()) => Ok(()),
            Err(_) => Err(TurnFault::WriteFailed),
        }
    }

    /// The writer. What wasn't written is dropped.
    pub(crate) fn into_writer(self) -> W
        ensures { result ≡ self.writer }
    {
        self.writer
    }

    /// Writes all that was made.
    pub(crate) fn send(&mut self) -> Result<(), TurnFault>
        ensures kept { (text : List ℕ) → Sends W.contents self.old text → Sends W.contents self.new text }
        ensures all { OnOk result ((text : List ℕ) → Sends W.contents self.old text → Holds W.contents self.new.writer text) }
    {
        'pieces: while self.sent < self.text.len() {
            match write_some(&mut self.writer, &self.text.as_bytes()[self.sent..]) {
                Ok(count) => self.sent += count,
                Err(_) => return Err(TurnFault::WriteFailed),
            }
        }
        self.sent = 0;
        self.text.clear();
        Ok(())
    }
}
