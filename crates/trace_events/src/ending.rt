//! What follows the events of the last turn, appended to a text.
ghost use Rattle.std.specs.Prelude.{◌≡◌, ◌==◌, ◌++◌, OnOk, codes, if◌then◌else◌};
ghost use Rattle.std.specs.String.{string_bytes};
ghost use Rattle.trace_events.specs.Ending as spec;
ghost use Rattle.trace_events.specs.Events as event;

use crate::event::{write_idle, write_number};
use crate::thread_state::ThreadState;
use crate::timed_turn::{TimedTurn, number_of, phase_of, time_of};
use crate::wait::Wait;
use itoa::Buffer;
use std::alloc::AllocError;

/// Appends the waits that don't end, up to a time.
pub(crate) fn write_unended(
    text: &mut String,
    threads: &[ThreadState],
    to: u64,
) -> Result<(), AllocError>
    ensures { OnOk result (string_bytes text.new ≡ string_bytes text.old ++ spec.unended_events to threads.now) }
{
    for (thread, state) in threads.iter().enumerate() {
        write_unended_wait(text, thread as u64, state.last, to)?;
    }
    Ok(())
}

/// Appends the wait of a thread after its last turn, if it waits.
fn write_unended_wait(
    text: &mut String,
    thread: u64,
    last: Option<TimedTurn>,
    to: u64,
) -> Result<(), AllocError>
    ensures { OnOk result (string_bytes text.new ≡ string_bytes text.old ++ spec.unended_by (spec.wait_after last) last thread to) }
{
    match last {
        Some(turn) if Wait::of(turn.turn.stop).is_some() => write_idle(text, last, thread, to),
        _ => Ok(()),
    }
}

/// Appends the totals of a run with this last turn.
#[tactic(auto, unfolding(crate::specs::Ending::totals_text))]
pub(crate) fn write_totals(
    text: &mut String,
    last: Option<TimedTurn>,
    instructions: u64,
) -> Result<(), AllocError>
    ensures { OnOk result (string_bytes text.new ≡ string_bytes text.old ++ spec.totals_text last instructions) }
{
    text.push_str(opening(number_of(last)))?;
    text.push_str("\n],\"otherData\":{\"unit\":\"instructions\",\"critical_path\":")?;
    write_number(text, time_of(last))?;
    text.push_str(",\"instructions\":")?;
    write_number(text, instructions)?;
    text.push_str(",\"processors\":")?;
    write_quotient(text, instructions, time_of(last))?;
    text.push_str(",\"turns\":")?;
    write_number(text, number_of(last))?;
    text.push_str(",\"phases\":")?;
    write_number(text, phase_of(last))?;
    text.push_str(",\"threads\":[")?;
    Ok(())
}

/// The beginning of the file, if it has no turn.
fn opening(number: u64) -> &'static str
    ensures { result.now ≡ (if number == 0 then event.opening else codes "") }
{
    if number == 0 {
        "{\"traceEvents\":["
    } else {
        ""
    }
}

/// Appends a row for each thread that had a turn.
pub(crate) fn write_rows(text: &mut String, threads: &[ThreadState]) -> Result<(), AllocError>
    ensures { OnOk result (string_bytes text.new ≡ string_bytes text.old ++ spec.thread_rows threads.now) }
{
    for (thread, state) in threads.iter().enumerate() {
        write_thread(text, thread as u64, state)?;
    }
    Ok(())
}

/// Appends the row of a thread, if it had a turn.
fn write_thread(text: &mut String, thread: u64, state: &ThreadState) -> Result<(), AllocError>
    ensures { OnOk result (string_bytes text.new ≡ string_bytes text.old ++ spec.row_by state.now.last thread state.now) }
{
    match state.last {
        Some(_) => write_row(text, thread, state.instructions, state.token),
        None => Ok(()),
    }
}

/// Appends these cells of a thread.
#[tactic(auto, unfolding(crate::specs::Ending::row_text))]
fn write_row(
    text: &mut String,
    thread: u64,
    instructions: u64,
    token: u64,
) -> Result<(), AllocError>
    ensures { OnOk result (string_bytes text.new ≡ string_bytes text.old ++ spec.row_text thread instructions token) }
{
    let separator = if thread == 0 { "" } else { "," };
    text.push_str(separator)?;
    text.push_str("{\"thread\":")?;
    write_number(text, thread)?;
    text.push_str(",\"instructions\":")?;
    write_number(text, instructions)?;
    text.push_str(",\"token\":")?;
    write_number(text, token)?;
    text.push_str("}")
}

/// Appends the quotient of two numbers with two decimals, rounded down, or 0.00 if the divisor is 0.
fn write_quotient(text: &mut String, dividend: u64, divisor: u64) -> Result<(), AllocError>
    ensures { OnOk result (string_bytes text.new ≡ string_bytes text.old ++ spec.quotient_text dividend divisor) }
{
    if divisor == 0 {
        return text.push_str("0.00");
    }
    write_hundredths(text, u128::from(dividend) * 100 / u128::from(divisor))
}

/// Appends a number of hundredths with two decimals.
#[tactic(auto, unfolding(crate::specs::Ending::hundredths_text))]
fn write_hundredths(text: &mut String, number: u128) -> Result<(), AllocError>
    ensures { OnOk result (string_bytes text.new ≡ string_bytes text.old ++ spec.hundredths_text number) }
{
    text.push_str(Buffer::new().format(number / 100))?;
    text.push_str(".")?;
    text.push_str(Buffer::new().format(number / 10 % 10))?;
    text.push_str(Buffer::new().format(number % 10))
}
