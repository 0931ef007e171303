//! The text of a guest's file in `data/`: fields by lines, and blocks whose lines begin with two spaces. Fields that other tests read,
//! and lines that begin with `#`, are passed over: `tools/dt test rows` refuses a file with others.

use crate::guest::Guest;
use crate::guest_run::GuestRun;
use crate::output::Output;
use crate::rounds::{push_counted, write_rounds};
use std::alloc::{AllocError, Global};
use test_guest_rows::{byte, bytes, decimal, push_whole, small, split, word};

/// What the lines of a block are of.
#[derive(Clone, Copy)]
enum Block {
    Nothing,
    Listing,
    Trace,
    Report,
}

/// The guest of this name that a text says.
pub fn guest_of(alloc: Global, name: &str, text: &str) -> Result<Guest, AllocError> {
    let mut guest = Guest::new(alloc, name)?;
    let mut block = Block::Nothing;
    for line in text.lines() {
        match line.strip_prefix("  ") {
            Some(inner) => push_line(&mut guest, block, inner)?,
            None => block = take_field(alloc, &mut guest, line)?,
        }
    }
    Ok(guest)
}

/// Appends a line of a block.
fn push_line(guest: &mut Guest, block: Block, line: &str) -> Result<(), AllocError> {
    match (block, guest.runs.last_mut()) {
        (Block::Listing, _) => push_whole(&mut guest.listing, line),
        (Block::Trace, Some(run)) => match line.strip_prefix("* ") {
            Some(rounds) => write_rounds(&mut run.trace, rounds),
            None => push_whole(&mut run.trace, line),
        },
        (Block::Report, Some(run)) => push_whole(&mut run.report, line),
        _ => Ok(()),
    }
}

/// Takes a field, and answers which block begins after it.
fn take_field(alloc: Global, guest: &mut Guest, line: &str) -> Result<Block, AllocError> {
    let (name, rest) = split(line);
    match (name, guest.runs.last_mut()) {
        ("listing", _) => return Ok(Block::Listing),
        ("zeros", _) => guest.zeros.push(segment_of(rest))?,
        ("run", _) => guest.runs.push(GuestRun::new(alloc, rest)?)?,
        (_, Some(run)) => return take_run_field(alloc, run, name, rest),
        ("sample", None) => guest.is_sample = true,
        _ => {}
    }
    Ok(Block::Nothing)
}

/// The address and the size of a segment.
fn segment_of(text: &str) -> (u32, u32) {
    let (address, size) = split(text);
    (word(address), small(size))
}

/// Takes a field of a run, and answers which block begins after it.
fn take_run_field(
    alloc: Global,
    run: &mut GuestRun,
    name: &str,
    rest: &str,
) -> Result<Block, AllocError> {
    match name {
        "trace" => return Ok(Block::Trace),
        "report" => return Ok(Block::Report),
        "sample" => run.is_sample = true,
        "long" => run.is_long = true,
        "bound" => run.bound = Some(decimal(rest)),
        "quantum" => run.quantum = Some(decimal(rest)),
        "input" => run.input = bytes(alloc, rest)?,
        "ends" => run.ending = String::from_str(alloc, rest)?,
        "output" => run.output = output_of(alloc, rest)?,
        "changed" => push_words(&mut run.changed, rest)?,
        "counted" => push_counted(&mut run.changed, rest)?,
        "memory" => run.memory.push(cell_of(rest))?,
        _ => {}
    }
    Ok(Block::Nothing)
}

/// The output that bytes say, or `zeros` and their number.
fn output_of(alloc: Global, text: &str) -> Result<Output, AllocError> {
    match split(text) {
        ("zeros", count) => Ok(Output::Zeros(small(count) as usize)),
        _ => Ok(Output::Bytes(bytes(alloc, text)?)),
    }
}

/// Appends the words of a list.
fn push_words(words: &mut Vec<u32>, list: &str) -> Result<(), AllocError> {
    for digits in list.split_whitespace() {
        words.push(word(digits))?;
    }
    Ok(())
}

/// An address and its byte, or `none` where nothing is mapped.
fn cell_of(text: &str) -> (u32, Option<u8>) {
    match split(text) {
        (address, "none") => (word(address), None),
        (address, digits) => (word(address), Some(byte(digits))),
    }
}
