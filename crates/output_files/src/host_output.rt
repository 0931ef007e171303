//! An output to a host's file: written aside, and put in the file's place when it is whole.
ghost use Rattle.std.specs.Prelude.{IfSome, OnOk};
ghost use Rattle.std.specs.Io.KnownBytes.{Appends, IsAtEnd};
ghost use Rattle.output_files.specs.Content.{ReadsOn};

use std::io;
use std::io::{Read, Seek, Write};

/// Where an output goes once it is whole.
#[derive(Drop)]
pub(crate) enum End<F> {
    /// It is in the file at `part`, which takes the place of the file at `place`.
    Replace { part: String, place: String },
    /// It is copied into this open file.
    Copy(F),
    /// It is for no file.
    Aside,
}

/// A text that is written to a file of the host, and isn't whole yet. It is not `Drop`, so that no part is left by mistake.
pub struct HostOutput<F> {
    pub(crate) file: F,
    pub(crate) end: End<F>,
}

impl<F: Drop> HostOutput<F> {
    /// Closes its file, and leaves what it holds.
    pub(crate) fn close(self) {
        let HostOutput {
            file: _file,
            end: _end,
        } = self;
    }
}

impl<F: Write> Write for HostOutput<F> {
    fn write(&mut self, buf: &[u8]) -> io::Result<usize> {
        self.file.write(buf)
    }

    fn flush(&mut self) -> io::Result<()> {
        self.file.flush()
    }
}

/// Writes all that a file holds to a writer, and flushes it.
pub(crate) fn copy_text<F: Read + Seek, W: Write>(file: &mut F, writer: &mut W) -> io::Result<()>
    ensures whole { OnOk result (ReadsOn F.remaining F.stream_position F.stream_bytes
        → IfSome (F.stream_bytes file.old) (Appends (W.contents writer.old) (W.contents writer.new))) }
    ensures end { OnOk result (IsAtEnd (F.remaining file.new)) }
{
    file.rewind()?;
    io::copy(file, writer)?;
    writer.flush()
}
