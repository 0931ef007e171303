//! What each thread waits for that waits.
ghost use Rattle.std.specs.Prelude.{◌≡◌, ◌++◌, ◌<◌, ◌≤◌, ◌^◌, IfOk, OnOk, codes, decimal, length};
ghost use Rattle.std.specs.String.{string_bytes};
ghost use Rattle.explanations.specs.Waits as spec;

use crate::places::write_end;
use abi::Call;
use ecalls::call_of;
use std::alloc::{AllocError, Global};
use symbols::Symbols;
use thread_table::{Status, Thread};

/// A line for each thread that is blocked, ascending: what it waits for, and the function that it is in, as `thread 1 waits at condition 3
/// for mutex 2, in wait_for+24`. The numbers are those of the machine's objects.
///
/// # Errors
///
/// Only out of memory.
#[tactic(auto, unfolding(crate::specs::Waits::lines_before))]
pub fn waits_text(
    alloc: Global,
    threads: &[Thread],
    symbols: &Symbols,
) -> Result<String, AllocError>
    requires { length threads.now < 2 ^ 32 }
    ensures { IfOk result (λ text. string_bytes text ≡ spec.lines_before symbols.now threads.now (length threads.now)) }
{
    let mut text = String::new(alloc);
    for (number, thread) in threads.iter().enumerate() {
        write_thread(&mut text, symbols, number as u32, thread)?;
    }
    Ok(text)
}

/// Appends the line of a thread, if it is blocked.
#[tactic(auto, unfolding(crate::specs::Waits::line_of))]
fn write_thread(
    text: &mut String,
    symbols: &Symbols,
    number: u32,
    thread: &Thread,
) -> Result<(), AllocError>
    ensures { OnOk result (string_bytes text.new ≡ string_bytes text.old ++ spec.line_of symbols.now number thread.now) }
{
    match thread.status {
        Status::Blocked => write_blocked(text, symbols, number, thread),
        Status::Ready | Status::Woken(_) | Status::Done(_) => Ok(()),
    }
}

/// Appends the line of a thread that is blocked.
#[tactic(auto, unfolding(crate::specs::Waits::blocked_text))]
fn write_blocked(
    text: &mut String,
    symbols: &Symbols,
    number: u32,
    thread: &Thread,
) -> Result<(), AllocError>
    ensures { OnOk result (string_bytes text.new ≡ string_bytes text.old ++ spec.blocked_text symbols.now number thread.now) }
{
    write_number(text, number)?;
    write_call(text, call_of(&thread.hart))?;
    write_end(text, symbols, thread.hart.pc())
}

/// Appends the number of a thread.
fn write_number(text: &mut String, number: u32) -> Result<(), AllocError>
    ensures { OnOk result (string_bytes text.new ≡ string_bytes text.old ++ codes "thread " ++ decimal number) }
{
    write!(text, "thread {number}")
}

/// Appends two numbers, each behind a text.
#[tactic(auto, unfolding(crate::specs::Waits::pair_text))]
fn write_pair(
    text: &mut String,
    before: &str,
    first: u32,
    between: &str,
    second: u32,
) -> Result<(), AllocError>
    ensures { OnOk result (string_bytes text.new ≡ string_bytes text.old ++ spec.pair_text before.now first between.now second) }
{
    write_after(text, before, first)?;
    write_after(text, between, second)
}

/// Appends a number behind a text.
fn write_after(text: &mut String, before: &str, number: u32) -> Result<(), AllocError>
    ensures { OnOk result (string_bytes text.new ≡ string_bytes text.old ++ before.now ++ decimal number) }
{
    text.push_str(before)?;
    write!(text, "{number}")
}

/// Appends what a thread waits for in a call.
fn write_call(text: &mut String, call: Call) -> Result<(), AllocError>
    ensures { OnOk result (string_bytes text.new ≡ string_bytes text.old ++ spec.call_text call) }
{
    match call {
        Call::Join { thread } => write!(text, " waits for the end of thread {thread}"),
        Call::Wait { condition, mutex } => {
            write_pair(
                text,
                " waits at condition ",
                condition,
                " for mutex ",
                mutex,
            )
        }
        Call::Barrier { barrier, count } => {
            write_pair(text, " waits at barrier ", barrier, " of ", count)
        }
        Call::Exit { .. }
        | Call::ThreadExit { .. }
        | Call::Create { .. }
        | Call::Lock { .. }
        | Call::Unlock { .. }
        | Call::Signal { .. }
        | Call::Broadcast { .. }
        | Call::Write { .. }
        | Call::Read { .. }
        | Call::Memory { .. }
        | Call::Sync
        | Call::Release { .. }
        | Call::Unknown { .. } => text.push_str(" waits"),
    }
}
