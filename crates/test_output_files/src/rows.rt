//! The rows: their lines are taken one by one, in a folder of the host's own for each row.

use crate::faults::is_fault;
use crate::host::{change, is_there};
use crate::names::is_one;
use crate::outputs::{Held, let_go, output};
use crate::readers::is_read;
use crate::words::split;
use std::path::PathBuf;
use std::{env, fs, io};

/// Prints the line of each row.
pub fn show_rows(rt: &HostRuntime) -> io::Result<()> {
    let text = text_of_rows(rt)?;
    for row in text.as_str().split("\nrow ").skip(1) {
        show_row(rt, row)?;
    }
    Ok(())
}

/// The text of the file of rows, with a NUL in the place of `{nul}`.
fn text_of_rows(rt: &HostRuntime) -> io::Result<String> {
    let path = if fs::exists(rt, "rows")? {
        "rows"
    } else {
        "data/rows"
    };
    let text = fs::read_to_string(rt, path)?;
    Ok(text.as_str().replace(rt.alloc(), "{nul}", "\0")?)
}

/// Prints the line of a row.
fn show_row(rt: &HostRuntime, row: &str) -> io::Result<()> {
    let (name, lines) = row.split_once('\n').unwrap_or((row, ""));
    let said = first_wrong(rt, lines)?.unwrap_or("ok");
    println!(rt; "{name}: {said}")
}

/// Takes the lines of a row in an empty folder. Answers the first that isn't so.
fn first_wrong<'a>(rt: &HostRuntime, lines: &'a str) -> io::Result<Option<&'a str>> {
    let folder = empty_folder(rt)?;
    let mut held = None;
    let wrong = first_wrong_in(rt, &mut held, folder.as_str(), lines);
    let_go(rt, held);
    fs::remove_dir_all(rt, folder.as_str())?;
    Ok(wrong)
}

/// An empty folder below that of temporary files.
fn empty_folder(rt: &HostRuntime) -> io::Result<String> {
    let mut path: PathBuf = env::temp_dir(rt)?;
    path.push("dthreads-rows")?;
    let _ = fs::remove_dir_all(rt, &path);
    fs::create_dir(rt, &path)?;
    Ok(path.into_string())
}

/// Takes lines with a folder in the place of `{}`. Answers the first that isn't so, or can't be taken.
fn first_wrong_in<'a>(
    rt: &HostRuntime,
    held: &mut Held,
    folder: &str,
    lines: &'a str,
) -> Option<&'a str> {
    for line in lines.lines() {
        if !take_line(rt, held, folder, line).unwrap_or(false) {
            return Some(line);
        }
    }
    None
}

/// Takes a line with a folder in the place of `{}`. Whether it is so.
fn take_line(rt: &HostRuntime, held: &mut Held, folder: &str, line: &str) -> io::Result<bool> {
    let line = line.replace(rt.alloc(), "{}", folder)?;
    is_so(rt, held, line.as_str())
}

/// Takes a line. Whether it is so.
fn is_so(rt: &HostRuntime, held: &mut Held, line: &str) -> io::Result<bool> {
    let (group, rest) = split(line);
    let (verb, rest) = split(rest);
    match group {
        "" => Ok(true),
        "host" => change(rt, verb, rest),
        "now" => is_there(rt, verb, rest),
        "output" => output(rt, held, verb, rest),
        "names" => Ok(is_one(rt, verb, rest)),
        "read" => is_read(rt, verb, rest),
        "error" => Ok(is_fault(verb, rest)),
        _ => Ok(false),
    }
}
