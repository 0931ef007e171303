//! Outputs of the host's files: one at a time is held until a line ends it.

use crate::fakes::LosingWriter;
use crate::host::mode_of;
use crate::words::{octal, split};
use output_files::{BeginFault, Files, HostFiles, HostOutput, WriteFault};
use std::fs::File;
use std::io::Write;
use std::{fs, io};

/// What is answered for a file that can't be written.
const WRITE_FAILED: BeginFault = BeginFault::Write(WriteFault::WriteFailed);

/// The output that was begun and isn't ended.
pub type Held = Option<HostOutput<File>>;

/// Begins or ends an output. Whether it went as wanted.
pub fn output(rt: &HostRuntime, held: &mut Held, verb: &str, rest: &str) -> io::Result<bool> {
    let mut files = HostFiles::new(rt);
    let (path, text) = split(rest);
    match verb {
        "refused" => Ok(is_refused(rt, rest, WRITE_FAILED)),
        "blocked" => Ok(is_refused(rt, rest, BeginFault::PartBlocked)),
        "begin" => hold(rt, held, files.begin(rt.alloc(), path).ok(), text),
        "aside" => hold(rt, held, files.begin_aside().ok(), rest),
        "mode" => is_mode(rt, rest),
        _ => end(rt, held, verb, rest),
    }
}

/// Whether no output is begun for the file at a path, for this fault.
fn is_refused(rt: &HostRuntime, path: &str, wanted: BeginFault) -> bool {
    let mut files = HostFiles::new(rt);
    match files.begin(rt.alloc(), path) {
        Ok(output) => {
            files.abandon(path, output);
            false
        }
        Err(fault) => fault == wanted,
    }
}

/// Writes to an output the pieces of a text, which `|` is between, and holds it.
fn hold(
    rt: &HostRuntime,
    held: &mut Held,
    begun: Option<HostOutput<File>>,
    text: &str,
) -> io::Result<bool> {
    let Some(mut output) = begun else {
        return Ok(false);
    };
    let written = write_out(&mut output, text);
    let_go(rt, held.replace(output));
    written?;
    Ok(true)
}

/// Writes pieces, and flushes what they were written to.
fn write_out<W: Write>(output: &mut W, text: &str) -> io::Result<()> {
    for piece in text.split('|') {
        output.write_all(piece.as_bytes())?;
    }
    output.flush()
}

/// Takes an output away that no line ended.
pub fn let_go(rt: &HostRuntime, held: Held) {
    if let Some(output) = held {
        HostFiles::new(rt).abandon_aside(output);
    }
}

/// Ends the output. Whether it went as wanted.
fn end(rt: &HostRuntime, held: &mut Held, verb: &str, rest: &str) -> io::Result<bool> {
    let Some(output) = held.take() else {
        return Ok(false);
    };
    match verb {
        "finish" => Ok(is_finished(rt, output, rest, Ok(()))),
        "stuck" => Ok(is_finished(rt, output, rest, Err(WriteFault::WriteFailed))),
        "copy" => is_copied(rt, output, rest),
        "lost" => Ok(is_lost(rt, output)),
        _ => Ok(is_abandoned(rt, output, verb, rest)),
    }
}

/// Whether an output is put in its place, or can't be.
fn is_finished(
    rt: &HostRuntime,
    output: HostOutput<File>,
    path: &str,
    wanted: Result<(), WriteFault>,
) -> bool {
    HostFiles::new(rt).finish(path, output) == wanted
}

/// Takes an output away: a part, or one for no file.
fn is_abandoned(rt: &HostRuntime, output: HostOutput<File>, verb: &str, path: &str) -> bool {
    let mut files = HostFiles::new(rt);
    if verb == "abandon" {
        files.abandon(path, output);
        return true;
    }
    files.abandon_aside(output);
    verb == "drop"
}

/// Whether an output is copied as this text.
fn is_copied(rt: &HostRuntime, output: HostOutput<File>, wanted: &str) -> io::Result<bool> {
    let mut copy = Vec::new(rt.alloc());
    let copied = HostFiles::new(rt).copy(output, &mut copy);
    Ok(copied.is_ok() && copy.as_slice() == wanted.as_bytes())
}

/// Whether the copy of an output to a writer that loses it fails.
fn is_lost(rt: &HostRuntime, output: HostOutput<File>) -> bool {
    HostFiles::new(rt).copy(output, &mut LosingWriter) == Err(WriteFault::WriteFailed)
}

/// Whether the file without a name that this process has opened beside a row's folder has these permissions. Its name began as the
/// folder's does.
fn is_mode(rt: &HostRuntime, rest: &str) -> io::Result<bool> {
    let (folder, digits) = split(rest);
    let start = folder.strip_suffix("rows").unwrap_or(folder);
    Ok(nameless_mode(rt, start)? == octal(digits))
}

/// The permissions of the first file that this process has opened, that has no name any more and whose name began so.
fn nameless_mode(rt: &HostRuntime, start: &str) -> io::Result<u32> {
    for number in 3..64u32 {
        let path = format!(in rt.alloc(); "/proc/self/fd/{number}")?;
        if is_nameless(rt, path.as_str(), start) {
            return mode_of(rt, path.as_str());
        }
    }
    Ok(0)
}

/// Whether a link of an opened file says that it has no name any more, and that its name began so.
fn is_nameless(rt: &HostRuntime, link: &str, start: &str) -> bool {
    match fs::read_link(rt, link) {
        Ok(target) => {
            let target = target.into_string();
            target.as_str().starts_with(start) && target.as_str().ends_with(" (deleted)")
        }
        Err(_) => false,
    }
}
