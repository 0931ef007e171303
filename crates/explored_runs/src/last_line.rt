//! The last line of an output, made fit for a table.
ghost use Rattle.std.specs.Prelude.{◌≡◌, IfOk, OnOk};
ghost use Rattle.explored_runs.specs.LastLine as spec;

use std::alloc::{AllocError, Global};

/// How many bytes of a line are shown at most.
const WIDTH: usize = 40;

/// The first bytes of the last line of an output, at most 40. Bytes other than printable ASCII are dots. A newline at the end of the output
/// ends the last line.
pub(crate) fn last_line(alloc: Global, output: &[u8]) -> Result<Vec<u8>, AllocError>
    ensures { IfOk result (λ line. line.items ≡ spec.last_line output.now) }
{
    let mut line = Vec::new(alloc);
    for (i, byte) in output.iter().enumerate() {
        if *byte != b'\n' {
            push_shown(&mut line, *byte)?;
        } else if i + 1 < output.len() {
            line.clear();
        }
    }
    Ok(line)
}

/// Appends what is shown of a byte, if the line has room for it.
fn push_shown(line: &mut Vec<u8>, byte: u8) -> Result<(), AllocError>
    ensures { OnOk result (line.new.items ≡ spec.with_byte line.old.items byte) }
{
    if line.len() < WIDTH {
        line.push(shown(byte))?;
    }
    Ok(())
}

/// A byte if it is printable ASCII, else a dot.
fn shown(byte: u8) -> u8
    ensures { result ≡ spec.shown byte }
{
    if 32 <= byte && byte <= 126 {
        byte
    } else {
        b'.'
    }
}
