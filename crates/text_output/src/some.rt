//! A first piece of some bytes, written to any writer.
ghost use Rattle.std.specs.Prelude.{◌<◌, IfOk};
ghost use Rattle.std.specs.Io.{WritesAtMost};
ghost use Rattle.std.specs.Io.KnownBytes.{WriteAppends};

use std::io::{ErrorKind, Write};
use thiserror::Error;

/// A writer took none of the bytes that it was given.
#[derive(Clone, Copy, Debug, PartialEq, Eq, Error)]
#[error("nothing was written")]
pub struct NotWritten;

/// Writes a prefix of these bytes and answers its length, which isn't 0. A write that a signal interrupts is
/// made again. Where it fails the writer took nothing.
pub fn write_some<W: Write>(writer: &mut W, bytes: &[u8]) -> Result<usize, NotWritten>
    ensures within { WritesAtMost result bytes.now }
    ensures some { IfOk result (λ count. 0 < count) }
    ensures bytes { WriteAppends (W.contents writer.old) (W.contents writer.new) result bytes.now }
{
    'tries: for _ in 0..u64::MAX {
        match writer.write(bytes) {
            Ok(count) if count > 0 => return Ok(count),
            Err(error) if error.kind() == ErrorKind::Interrupted => {}
            Ok(_) | Err(_) => break,
        }
    }
    Err(NotWritten)
}
