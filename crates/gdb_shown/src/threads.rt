//! The list of threads, and what each does in words.
ghost use Rattle.std.specs.Prelude.{◌≡◌, ◌==◌, ◌++◌, IfOk, OnOk, drop, find};
ghost use Rattle.std.specs.String.{string_bytes};
ghost use Rattle.timeline.specs.Present.{moment_of};
ghost use Rattle.timeline.specs.Shown.{row_at, sees_at};
ghost use Rattle.gdb_shown.specs.Threads.{entry_shown, id_shown, ids_shown, join_words, joined_by, name_shown, next_id, part_shown, place_words, ready_words, shared_words, thread_words, threads_shown, waiting_words};

use condvar_barrier::{WaitPlace, Waiter};
use ecalls::call_of;
use gdb_packets::Window;
use std::alloc::{AllocError, Global};
use thread_table::Status;
use timeline::{Sees, Timeline};

/// How many bytes a part of a text has at most.
const PART_LIMIT: u64 = 0x1000;

/// A part of a text, after a letter that says whether more follows.
pub fn part_of(alloc: Global, text: &[u8], window: Window) -> Result<Vec<u8>, AllocError>
    ensures { IfOk result (λ part. part.items ≡ part_shown text.now window) }
{
    let rest = behind(text, window.start);
    let length = window.length.min(PART_LIMIT).min(rest.len() as u64) as usize;
    let mut part = Vec::new(alloc);
    part.push(if length < rest.len() { b'm' } else { b'l' })?;
    part.extend_from_slice(&rest[..length])?;
    Ok(part)
}

/// What stands in a text from a place on.
fn behind(text: &[u8], start: u64) -> &[u8]
    ensures { result.now ≡ drop start text.now }
{
    let start = start.min(text.len() as u64) as usize;
    &text[start..]
}

/// The list of so many threads in XML, with what each does.
#[tactic(auto, unfolding(crate::specs::Threads::first_entries))]
pub fn threads_text(alloc: Global, timeline: &Timeline, listed: u32) -> Result<String, AllocError>
    ensures { IfOk result (λ text. string_bytes text ≡ threads_shown (moment_of timeline.now.present) listed) }
{
    let mut text = String::from_str(alloc, "<threads>")?;
    for thread in 0..listed {
        write_entry(&mut text, timeline, thread)?;
    }
    text.push_str("</threads>")?;
    Ok(text)
}

/// Writes the entry of a thread in the list.
#[tactic(auto, unfolding(crate::specs::Threads::entry_shown))]
fn write_entry(text: &mut String, timeline: &Timeline, thread: u32) -> Result<(), AllocError>
    ensures { OnOk result
        (string_bytes text.new ≡ string_bytes text.old ++ entry_shown (moment_of timeline.now.present) thread) }
{
    write_name(text, thread)?;
    write_thread(text, timeline, thread)?;
    text.push_str("</thread>")
}

/// Writes the begin of a thread's entry: its id and its name.
#[tactic(auto, unfolding(crate::specs::Threads::name_shown))]
fn write_name(text: &mut String, thread: u32) -> Result<(), AllocError>
    ensures { OnOk result (string_bytes text.new ≡ string_bytes text.old ++ name_shown thread) }
{
    text.push_str("<thread id=\"")?;
    write_id(text, thread)?;
    text.push_str("\" name=\"guest ")?;
    write!(text, "{thread}")?;
    text.push_str("\">")?;
    Ok(())
}

/// Writes gdb's id of a thread.
pub(crate) fn write_id(text: &mut String, thread: u32) -> Result<(), AllocError>
    ensures { OnOk result (string_bytes text.new ≡ string_bytes text.old ++ id_shown thread) }
{
    let id = u64::from(thread) + 1;
    write!(text, "{id:x}")
}

/// The ids of so many threads.
#[tactic(auto, unfolding(crate::specs::Threads::first_ids))]
pub fn ids_text(alloc: Global, listed: u32) -> Result<String, AllocError>
    ensures { IfOk result (λ text. string_bytes text ≡ ids_shown listed) }
{
    let mut text = String::from_str(alloc, "m")?;
    for thread in 0..listed {
        write_next_id(&mut text, thread)?;
    }
    Ok(text)
}

/// Writes the id of a thread behind those of the threads before it.
#[tactic(auto, unfolding(crate::specs::Threads::next_id))]
fn write_next_id(text: &mut String, thread: u32) -> Result<(), AllocError>
    ensures { OnOk result (string_bytes text.new ≡ string_bytes text.old ++ next_id thread) }
{
    if thread == 0 {
        return write_id(text, thread);
    }
    text.push_str(",")?;
    write_id(text, thread)
}

/// Writes what a thread does.
#[tactic(auto, unfolding(crate::specs::Threads::thread_words))]
pub fn write_thread(text: &mut String, timeline: &Timeline, thread: u32) -> Result<(), AllocError>
    ensures { OnOk result
        (string_bytes text.new ≡ string_bytes text.old ++ thread_words (moment_of timeline.now.present) thread) }
{
    match timeline.status(thread) {
        None => text.push_str("not created here"),
        Some(Status::Done(value)) => write!(text, "done, value {value}"),
        Some(Status::Woken(mutex)) => write!(text, "woken, takes mutex {mutex}"),
        Some(Status::Blocked) => write_wait(text, timeline, thread),
        Some(Status::Ready) => write_ready(text, timeline, thread),
    }
}

/// Writes where a ready thread stands in the phase.
fn write_ready(text: &mut String, timeline: &Timeline, thread: u32) -> Result<(), AllocError>
    ensures { OnOk result (string_bytes text.new ≡ string_bytes text.old
        ++ ready_words (moment_of timeline.now.present) thread (sees_at (moment_of timeline.now.present) thread)) }
{
    match timeline.sees(thread) {
        Sees::Own => {
            let (turn, phase) = (timeline.turn(), timeline.phase());
            write!(text, "its turn {turn}, phase {phase}")
        }
        Sees::PhaseStart => text.push_str("ready, its turn is to come"),
        Sees::Shared => text.push_str(shared_words(timeline, thread)),
    }
}

/// Where a ready thread stands in the phase whose turn isn't to come. A phase's list may leave out ready threads.
fn shared_words(timeline: &Timeline, thread: u32) -> &'static str
    ensures { result.now ≡ shared_words (moment_of timeline.now.present).point thread }
{
    if timeline.serial().list().contains(&thread) {
        "ready, its turn is over"
    } else {
        "ready, not in this phase"
    }
}

/// Writes what a blocked thread waits for.
fn write_wait(text: &mut String, timeline: &Timeline, thread: u32) -> Result<(), AllocError>
    ensures { OnOk result
        (string_bytes text.new ≡ string_bytes text.old ++ waiting_words (moment_of timeline.now.present).point thread) }
{
    match waiter_of(timeline.serial().objects().waiters(), thread) {
        Some(waiter) => write_place(text, waiter.place),
        None => write_join(text, joined_by(timeline, thread)),
    }
}

/// The entry of a thread among those that wait, none if it has none.
fn waiter_of(waiters: &[Waiter], thread: u32) -> Option<Waiter>
    ensures { result ≡ find (λ waiter. waiter.thread == thread) waiters.now }
{
    waiters
        .iter()
        .copied()
        .find(|waiter| u32::from(waiter.thread) == thread)
}

/// Writes where a thread waits.
fn write_place(text: &mut String, place: WaitPlace) -> Result<(), AllocError>
    ensures { OnOk result (string_bytes text.new ≡ string_bytes text.old ++ place_words place) }
{
    match place {
        WaitPlace::Condition { condition, mutex } => {
            write!(text, "waits at condition {condition} for mutex {mutex}")
        }
        WaitPlace::Barrier { barrier, count } => write!(
            text,
            "waits at barrier {barrier} of {count}"
        ),
    }
}

/// The thread that a thread joins by its call, none if its call is another.
fn joined_by(timeline: &Timeline, thread: u32) -> Option<u32>
    ensures { result ≡ joined_by (row_at (moment_of timeline.now.present).point thread) }
{
    let threads = timeline.serial().threads();
    if (thread as usize) < threads.len() {
        return call_of(&threads.get(thread).hart).joined();
    }
    None
}

/// Writes what a thread waits for that waits at no object.
fn write_join(text: &mut String, joined: Option<u32>) -> Result<(), AllocError>
    ensures { OnOk result (string_bytes text.new ≡ string_bytes text.old ++ join_words joined) }
{
    match joined {
        Some(thread) => write!(text, "joins guest {thread}"),
        None => text.push_str("waits"),
    }
}
