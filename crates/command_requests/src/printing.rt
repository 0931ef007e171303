//! Writes bytes to standard output and flushes them.
ghost use Rattle.std.specs.Prelude.{OnOk};
ghost use Rattle.std.specs.Io.KnownBytes.{Appends};

use std::io;
use std::io::Write;

/// Writes all of these bytes to standard output and flushes them.
pub fn print<W: Write>(bytes: &[u8], stdout: &mut W) -> io::Result<()>
    ensures { OnOk result (Appends (W.contents stdout.old) (W.contents stdout.new) bytes.now) }
{
    stdout.write_all(bytes)?;
    stdout.flush()
}
