//! The program dthreads: its `main` hands the host's files and streams to `command_line`.
#![tactic(auto)]

use command_line::{Failure, Target, arguments_of, conclude, perform};
use output_files::{HeldStreams, HostFiles, PLACE_HOLDER, hold_streams, is_open};
use runtime::WriteSink;
use std::fs::File;
use std::io::{ErrorKind, Write};
use std::process::ExitCode;

fn main(rt: HostRuntime) -> ExitCode {
    let mut stderr = rt.stderr();
    // (it lives until the program ends, and nothing is opened before it)
    let _held = match held_streams(&rt) {
        Ok(held) => held,
        Err(failure) => return refused(failure, &mut stderr),
    };
    let arguments = match arguments_of(&rt) {
        Ok(arguments) => arguments,
        Err(failure) => return refused(failure, &mut stderr),
    };
    let mut files = HostFiles::new(&rt);
    let mut stdin = rt.stdin();
    let mut stdout = WriteSink::new(rt.stdout());
    ExitCode::from(perform(
        &rt,
        rt.alloc(),
        arguments.as_slice(),
        &mut files,
        &mut stdin,
        &mut stdout,
        &mut stderr,
    ))
}

/// Holds the standard streams that are closed, if any is.
fn held_streams(rt: &HostRuntime) -> Result<Option<HeldStreams<File>>, Failure<'static>> {
    if is_open(&rt.stdin()) && is_open(&rt.stdout()) && is_open(&rt.stderr()) {
        return Ok(None);
    }
    match hold_streams(rt) {
        Ok(held) => Ok(Some(held)),
        Err(error) if error.kind() == ErrorKind::OutOfMemory => Err(Failure::OutOfMemory),
        Err(_) => Err(Failure::CannotRead(Target::Path(PLACE_HOLDER))),
    }
}

/// Says why no command is performed, and answers the status for it.
fn refused<W: Write>(failure: Failure<'_>, stderr: &mut W) -> ExitCode {
    ExitCode::from(conclude(Err(failure), stderr))
}
