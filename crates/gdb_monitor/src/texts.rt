//! What the commands tell of the present position.
use crate::command::Span;
use gdb_packets::write_byte;
use gdb_shown::{bytes_shared, write_thread};
use std::alloc::{AllocError, Global};
use timeline::{Sees, Stage, Timeline};

/// How many bytes are shown at most.
const SHARED_LIMIT: u32 = 4096;

/// The line of the position.
pub(crate) fn position_text(alloc: Global, timeline: &Timeline) -> Result<String, AllocError> {
    let (turn, phase, thread) = (timeline.turn(), timeline.phase(), timeline.thread());
    let (id, steps) = (u64::from(thread) + 1, timeline.steps_of_turn());
    let step = timeline.step_number();
    if let Stage::End(_) = timeline.stage() {
        return format!(in alloc;
            "turn {turn} phase {phase} thread {thread} (gdb thread id {id}), the run's end; step {step}\n"
        );
    }
    format!(in alloc;
        "turn {turn} phase {phase} thread {thread} (gdb thread id {id}), {steps} instructions into the turn; step {step}\n"
    )
}

/// The line of a thread: what it does, and which memory it shows.
pub(crate) fn thread_line(
    alloc: Global,
    timeline: &Timeline,
    thread: u32,
) -> Result<String, AllocError> {
    let id = u64::from(thread) + 1;
    let mut line = format!(in alloc; "guest {thread} (gdb thread id {id}): ")?;
    write_thread(&mut line, timeline, thread)?;
    line.push_str(match timeline.sees(thread) {
        Sees::Own => "; shows its own memory\n",
        Sees::PhaseStart => "; shows the memory of the phase's start\n",
        Sees::Shared => "; shows the shared memory\n",
    })?;
    Ok(line)
}

/// The lines of the mutexes that are held, and of those who wait at a condition variable or a barrier.
pub(crate) fn locks_text(alloc: Global, timeline: &Timeline) -> Result<String, AllocError> {
    let mut text = String::new(alloc);
    write_holders(&mut text, timeline)?;
    write_waiters(&mut text, timeline)?;
    if text.is_empty() {
        text.push_str("no mutex is held, and nobody waits at a condition or a barrier\n")?;
    }
    Ok(text)
}

/// Writes the lines of the mutexes that are held.
fn write_holders(text: &mut String, timeline: &Timeline) -> Result<(), AllocError> {
    let objects = timeline.serial().objects();
    for (mutex, holder) in objects.holders().iter().enumerate() {
        if let Some(holder) = holder {
            writeln!(text, "mutex {mutex}: held by guest {holder}")?;
        }
    }
    Ok(())
}

/// Writes the lines of those who wait at a condition variable or a barrier.
fn write_waiters(text: &mut String, timeline: &Timeline) -> Result<(), AllocError> {
    for waiter in timeline.serial().objects().waiters() {
        let thread = u32::from(waiter.thread);
        write!(text, "guest {thread} ")?;
        write_thread(text, timeline, thread)?;
        text.push_str("\n")?;
    }
    Ok(())
}

/// The line of some bytes of the shared memory, as far as they are mapped.
pub(crate) fn shared_text(
    alloc: Global,
    timeline: &Timeline,
    span: Span,
) -> Result<String, AllocError> {
    let bytes = bytes_shared(alloc, timeline, span.start, span.count.min(SHARED_LIMIT))?;
    let start = span.start;
    let mut text = format!(in alloc; "{start:08x}:")?;
    for byte in bytes.as_slice() {
        text.push_str(" ")?;
        write_byte(&mut text, *byte)?;
    }
    text.push_str("\n")?;
    Ok(text)
}
