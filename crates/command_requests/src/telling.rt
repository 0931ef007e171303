//! Says on standard error what is wrong with arguments, in the parser's words, but for a tip that never helps and for numbers.

use clap::Error;
use clap::error::ErrorKind;
use std::alloc::Global;
use std::convert::AsStr;
use std::io;
use std::io::Write;

/// How the parser's tip begins that a word behind `--` is a value. No command takes one that begins with a dash.
const TIP: &str = "\n\n  tip: to pass ";

/// What the parser says of digits that are none, and what is said in its place.
const NO_DIGIT: &str = "invalid digit found in string";

const NO_NUMBER: &str = "expected a whole number, such as 1000000 or 10M";

/// Says what is wrong with the arguments of a command line. If writing fails, nothing more is said.
pub(crate) fn tell<S: AsStr, E: Write>(
    alloc: Global,
    arguments: &[S],
    error: &Error,
    stderr: &mut E,
) {
    let _ = match error.to_string(alloc) {
        Ok(text) => write_told(text.as_str(), stderr),
        Err(_) => write!(stderr, "{error}"),
    };
    if error.kind() == ErrorKind::InvalidSubcommand {
        let _ = write_command(arguments, stderr);
    }
}

/// Writes a text of the parser without the tip, if it has it.
fn write_told<E: Write>(text: &str, stderr: &mut E) -> io::Result<()> {
    let Some((before, rest)) = text.split_once(TIP) else {
        return write_numbered(text, stderr);
    };
    write_numbered(before, stderr)?;
    match rest.split_once("\n\n") {
        Some((_, after)) => {
            stderr.write_all(b"\n\n")?;
            stderr.write_all(after.as_bytes())
        }
        None => stderr.write_all(b"\n"),
    }
}

/// Writes a text of the parser, which may be about a number.
fn write_numbered<E: Write>(text: &str, stderr: &mut E) -> io::Result<()> {
    let Some((before, after)) = text.split_once(NO_DIGIT) else {
        return stderr.write_all(text.as_bytes());
    };
    stderr.write_all(before.as_bytes())?;
    stderr.write_all(NO_NUMBER.as_bytes())?;
    stderr.write_all(after.as_bytes())
}

/// Writes the command that runs a program whose file stands in the place of a command.
fn write_command<S: AsStr, E: Write>(arguments: &[S], stderr: &mut E) -> io::Result<()> {
    match arguments.get(1) {
        Some(word) if word.as_str().ends_with(".elf") => {
            stderr.write_all(b"To run it: dthreads run ")?;
            stderr.write_all(word.as_str().as_bytes())?;
            stderr.write_all(b"\n")
        }
        _ => Ok(()),
    }
}
