//! The turns that changed some bytes, made again from the run's start.
ghost use Rattle.std.specs.Prelude.{◌≡◌, IfOk, min};

use crate::command::Span;
use commit::changed_addresses;
use gdb_packets::write_bytes;
use paged_memory::Snapshot;
use std::alloc::{AllocError, Global};
use timeline::{Timeline, moved};
use token::{Need, Next, NoRecord, SegmentEnd, Serial, next_turn};

/// How many bytes are looked at for their writers at most.
const WRITERS_LIMIT: u32 = 4096;

/// Says the turns so far that changed one of these bytes.
pub(crate) fn say_writers(
    alloc: Global,
    said: &mut Vec<u8>,
    timeline: &Timeline,
    span: Span,
) -> Result<(), AllocError> {
    let span = looked_at(alloc, said, span)?;
    let mut serial = timeline.beginning()?;
    let mut is_none = true;
    for number in 1..=timeline.serial().done() {
        let line = writer_line(alloc, &mut serial, number, span)?;
        if !line.is_empty() {
            is_none = false;
            said.extend_from_slice(line.as_bytes())?;
        }
    }
    if is_none {
        said.extend_from_slice(b"no turn so far\n")?;
    }
    Ok(())
}

/// The bytes that are looked at. If they are fewer than was asked for, that is said.
fn looked_at(alloc: Global, said: &mut Vec<u8>, span: Span) -> Result<Span, AllocError>
    ensures { IfOk result (λ looked. looked ≡ record { start = span.start; count = min span.count 4096 }) }
{
    if span.count > WRITERS_LIMIT {
        let line = format!(in alloc; "looking at the first {WRITERS_LIMIT} bytes\n")?;
        said.extend_from_slice(line.as_bytes())?;
    }
    Ok(Span {
        start: span.start,
        count: span.count.min(WRITERS_LIMIT),
    })
}

/// Some bytes before a turn and after it.
#[derive(Drop)]
struct ChangedBytes {
    /// As its thread found them.
    base: Vec<u8>,
    /// As they were in the shared memory before it.
    before: Vec<u8>,
    /// As they are in the shared memory after it.
    after: Vec<u8>,
}

/// Does the next turn of a run, and gives the line of what it changed of some bytes; an empty one if it changed none.
fn writer_line(
    alloc: Global,
    serial: &mut Serial<NoRecord>,
    number: u64,
    span: Span,
) -> Result<String, AllocError> {
    let base = match serial.need() {
        Need::Segment(_) => bytes_of(alloc, serial.base(), span)?,
        _ => bytes_of(alloc, serial.now(), span)?,
    };
    let before = bytes_of(alloc, serial.now(), span)?;
    let Next::Turn(end) = next_turn(serial)? else {
        return Ok(String::new(alloc));
    };
    let is_patched = has_patched(alloc, &end, span)?;
    let turn = moved(serial.turn(end.as_ref()))?;
    let after = bytes_of(alloc, serial.now(), span)?;
    if !is_patched && before.as_slice() == after.as_slice() {
        return Ok(String::new(alloc));
    }
    line_of(
        alloc,
        number,
        turn.thread,
        &ChangedBytes {
            base,
            before,
            after,
        },
    )
}

/// The line of a turn that changed some bytes.
fn line_of(
    alloc: Global,
    number: u64,
    thread: u32,
    change: &ChangedBytes,
) -> Result<String, AllocError> {
    let mut text = format!(in alloc; "turn {number} thread {thread}: ")?;
    write_bytes(&mut text, change.base.as_slice())?;
    text.push_str(" -> ")?;
    write_bytes(&mut text, change.after.as_slice())?;
    if change.base.as_slice() != change.before.as_slice() {
        text.push_str(" (shared before: ")?;
        write_bytes(&mut text, change.before.as_slice())?;
        text.push_str(")")?;
    }
    text.push_str("\n")?;
    Ok(text)
}

/// Whether a segment changed one of some bytes.
fn has_patched(alloc: Global, end: &Option<SegmentEnd>, span: Span) -> Result<bool, AllocError> {
    let Some(end) = end else {
        return Ok(false);
    };
    let addresses = changed_addresses(alloc, &end.patch)?;
    Ok(addresses.iter().any(|address| span.start <= *address && *address - span.start < span.count))
}

/// Some bytes of a memory, as far as they are mapped.
fn bytes_of(alloc: Global, memory: &Snapshot, span: Span) -> Result<Vec<u8>, AllocError> {
    let mut bytes = Vec::new(alloc);
    for offset in 0..span.count {
        let Some(address) = span.start.checked_add(offset) else {
            return Ok(bytes);
        };
        let Some(byte) = memory.byte(address) else {
            return Ok(bytes);
        };
        bytes.push(byte)?;
    }
    Ok(bytes)
}
