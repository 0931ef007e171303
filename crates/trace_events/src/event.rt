//! Single events, appended to a text.
ghost use Rattle.std.specs.Prelude.{◌≡◌, ◌++◌, OnOk, decimal, option_map};
ghost use Rattle.std.specs.String.{string_bytes};
ghost use Rattle.trace_events.specs.Events as spec;

use crate::sum::sum;
use crate::timed_turn::{TimedTurn, is_wake};
use crate::wait::Wait;
use itoa::Buffer;
use std::alloc::AllocError;
use token::{TurnFault, TurnStop};
use tracer::{write_call_name, write_stop};

/// Appends a number.
pub(crate) fn write_number(text: &mut String, number: u64) -> Result<(), AllocError>
    ensures { OnOk result (string_bytes text.new ≡ string_bytes text.old ++ decimal number) }
{
    text.push_str(Buffer::new().format(number))
}

/// Appends the beginning of an event of a thread: its kind, the thread and the time.
#[tactic(auto, unfolding(crate::specs::Events::head_text))]
fn write_head(text: &mut String, kind: &str, thread: u64, time: u64) -> Result<(), AllocError>
    ensures { OnOk result (string_bytes text.new ≡ string_bytes text.old ++ spec.head_text kind.now thread time) }
{
    text.push_str(",\n{\"ph\":")?;
    text.push_str(kind)?;
    text.push_str(",\"pid\":1,\"tid\":")?;
    write_number(text, thread)?;
    text.push_str(",\"ts\":")?;
    write_number(text, time)
}

/// Appends the name of a thread whose first turn has this number.
#[tactic(auto, unfolding(crate::specs::Events::name_event))]
pub(crate) fn write_name(text: &mut String, number: u64, thread: u64) -> Result<(), AllocError>
    ensures { OnOk result (string_bytes text.new ≡ string_bytes text.old ++ spec.name_event number thread) }
{
    text.push_str(separator(number))?;
    text.push_str("\n{\"ph\":\"M\",\"pid\":1,\"tid\":")?;
    write_number(text, thread)?;
    text.push_str(",\"name\":\"thread_name\",\"args\":{\"name\":\"thread ")?;
    write_number(text, thread)?;
    text.push_str("\"}}")?;
    Ok(())
}

/// What comes before a thread's first event, if its turn has this number.
fn separator(number: u64) -> &'static str
    ensures { result.now ≡ spec.separator number }
{
    if number == 1 {
        "{\"traceEvents\":["
    } else {
        ","
    }
}

/// Appends what a thread did from its last turn on, up to a time.
pub(crate) fn write_idle(
    text: &mut String,
    last: Option<TimedTurn>,
    thread: u64,
    to: u64,
) -> Result<(), AllocError>
    ensures { OnOk result (string_bytes text.new ≡ string_bytes text.old ++ spec.idle_event last thread to) }
{
    match last {
        Some(last) if last.time < to => {
            write_wait_begin(text, thread, last.time, to)?;
            write_wait_name(text, Wait::of(last.turn.stop))?;
            write_wait_end(text, last.number)
        }
        _ => Ok(()),
    }
}

/// Appends the wait for the token of a turn whose segment has ended before it.
pub(crate) fn write_token_wait(text: &mut String, timed: &TimedTurn) -> Result<(), TurnFault>
    ensures { OnOk result (string_bytes text.new ≡ string_bytes text.old ++ spec.token_event timed.now) }
{
    let from = sum(timed.begin, timed.turn.ran)?;
    if from < timed.time {
        write_wait_begin(text, u64::from(timed.turn.thread), from, timed.time)?;
        text.push_str("token")?;
        write_wait_end(text, timed.number)?;
    }
    Ok(())
}

/// Appends a wait up to its name.
fn write_wait_begin(text: &mut String, thread: u64, from: u64, to: u64) -> Result<(), AllocError>
    ensures { OnOk result (string_bytes text.new ≡ string_bytes text.old ++ spec.wait_begin thread from to) }
{
    write_head(text, "\"X\"", thread, from)?;
    text.push_str(",\"dur\":")?;
    write_number(text, to.saturating_sub(from))?;
    text.push_str(",\"name\":\"")
}

/// Appends the name of a wait.
fn write_wait_name(text: &mut String, wait: Option<Wait>) -> Result<(), AllocError>
    ensures { OnOk result (string_bytes text.new ≡ string_bytes text.old ++ spec.wait_name wait) }
{
    match wait {
        Some(wait) => wait.write(text),
        None => text.push_str("phase"),
    }
}

/// Appends a wait from its name on.
fn write_wait_end(text: &mut String, number: u64) -> Result<(), AllocError>
    ensures { OnOk result (string_bytes text.new ≡ string_bytes text.old ++ spec.wait_end number) }
{
    text.push_str("\",\"cat\":\"wait\",\"args\":{\"turn\":")?;
    write_number(text, number)?;
    text.push_str("}}")
}

/// Appends the segment of a turn, unless it has none.
pub(crate) fn write_segment(text: &mut String, timed: &TimedTurn) -> Result<(), AllocError>
    ensures { OnOk result (string_bytes text.new ≡ string_bytes text.old ++ spec.segment_event timed.now) }
{
    if is_wake(timed.turn.stop) {
        return Ok(());
    }
    write_segment_slice(text, timed)
}

/// Appends the segment of a turn that has one.
#[tactic(auto, unfolding(crate::specs::Events::segment_slice))]
fn write_segment_slice(text: &mut String, timed: &TimedTurn) -> Result<(), AllocError>
    ensures { OnOk result (string_bytes text.new ≡ string_bytes text.old ++ spec.segment_slice timed.now) }
{
    write_head(text, "\"X\"", u64::from(timed.turn.thread), timed.begin)?;
    text.push_str(",\"dur\":")?;
    write_number(text, timed.turn.ran)?;
    text.push_str(",\"name\":\"segment\",\"cat\":\"segment\",\"args\":{\"turn\":")?;
    write_number(text, timed.number)?;
    text.push_str(",\"phase\":")?;
    write_number(text, timed.turn.phase)?;
    text.push_str(",\"changed\":")?;
    write_number(text, timed.turn.changed)?;
    text.push_str(",\"pages\":")?;
    write_number(text, timed.pages)?;
    text.push_str("}}")?;
    Ok(())
}

/// Appends a turn.
#[tactic(auto, unfolding(crate::specs::Events::turn_event))]
pub(crate) fn write_turn(text: &mut String, timed: &TimedTurn) -> Result<(), AllocError>
    ensures { OnOk result (string_bytes text.new ≡ string_bytes text.old ++ spec.turn_event timed.now) }
{
    write_head(
        text,
        "\"i\",\"s\":\"t\"",
        u64::from(timed.turn.thread),
        timed.time,
    )?;
    text.push_str(",\"name\":\"")?;
    write_stop_name(text, timed.turn.stop)?;
    text.push_str("\",\"cat\":\"turn\",\"args\":{\"turn\":")?;
    write_number(text, timed.number)?;
    text.push_str(",\"text\":\"")?;
    write_stop(text, timed.turn.stop)?;
    text.push_str("\"}}")?;
    Ok(())
}

/// Appends what a turn is called.
fn write_stop_name(text: &mut String, stop: TurnStop) -> Result<(), AllocError>
    ensures { OnOk result (string_bytes text.new ≡ string_bytes text.old ++ spec.stop_name stop) }
{
    match stop {
        TurnStop::Call { number, .. } => write_call_name(text, number),
        TurnStop::Trap { .. } => text.push_str("trap"),
        TurnStop::Wake { .. } => text.push_str("wake"),
        TurnStop::Quantum { .. } => text.push_str("quantum"),
    }
}

/// Appends the flow from the turn that let a thread go to its next turn, if the thread was made or waited.
pub(crate) fn write_flow(
    text: &mut String,
    last: Option<TimedTurn>,
    from: Option<TimedTurn>,
    to: &TimedTurn,
) -> Result<(), AllocError>
    ensures { OnOk result (string_bytes text.new ≡ string_bytes text.old ++ spec.flow_event (spec.flow_name last) from to.now) }
{
    match (flow_name(last), from) {
        (Some(name), Some(from)) => write_flow_ends(text, name, &from, to),
        _ => Ok(()),
    }
}

/// What the next turn of a thread is called in its flow.
fn flow_name(last: Option<TimedTurn>) -> Option<&'static str>
    ensures { option_map (λ name. name.now) result ≡ spec.flow_name last }
{
    match last {
        None => Some("create"),
        Some(last) => match Wait::of(last.turn.stop) {
            None => None,
            Some(Wait::Join { .. }) => Some("join"),
            Some(Wait::Condition { .. }) => Some("signal"),
            Some(Wait::Barrier { .. }) => Some("barrier"),
        },
    }
}

/// Appends both ends of a flow.
#[tactic(auto, unfolding(crate::specs::Events::flow_text))]
fn write_flow_ends(
    text: &mut String,
    name: &str,
    from: &TimedTurn,
    to: &TimedTurn,
) -> Result<(), AllocError>
    ensures { OnOk result (string_bytes text.new ≡ string_bytes text.old ++ spec.flow_text name.now from.now to.now) }
{
    write_head(text, "\"s\"", u64::from(from.turn.thread), from.time)?;
    write_flow_end(text, name, to.number)?;
    write_head(
        text,
        "\"f\",\"bp\":\"e\"",
        u64::from(to.turn.thread),
        to.begin,
    )?;
    write_flow_end(text, name, to.number)
}

/// Appends one end of a flow from its name on.
#[tactic(auto, unfolding(crate::specs::Events::flow_end))]
fn write_flow_end(text: &mut String, name: &str, number: u64) -> Result<(), AllocError>
    ensures { OnOk result (string_bytes text.new ≡ string_bytes text.old ++ spec.flow_end name.now number) }
{
    text.push_str(",\"name\":\"")?;
    text.push_str(name)?;
    text.push_str("\",\"cat\":\"flow\",\"id\":")?;
    write_number(text, number)?;
    text.push_str("}")?;
    Ok(())
}

/// Appends the counters of a phase, at its start and at its last turn.
#[tactic(auto, unfolding(crate::specs::Events::counter_texts))]
pub(crate) fn write_counters(
    text: &mut String,
    from: u64,
    to: u64,
    ready: u64,
    pages: u64,
) -> Result<(), AllocError>
    ensures { OnOk result (string_bytes text.new ≡ string_bytes text.old ++ spec.counter_texts from to ready pages) }
{
    text.push_str(",\n{\"ph\":\"C\",\"pid\":1,\"ts\":")?;
    write_number(text, from)?;
    text.push_str(",\"name\":\"ready threads\",\"args\":{\"threads\":")?;
    write_number(text, ready)?;
    text.push_str("}},\n{\"ph\":\"C\",\"pid\":1,\"ts\":")?;
    write_number(text, to)?;
    text.push_str(",\"name\":\"changed pages\",\"args\":{\"pages\":")?;
    write_number(text, pages)?;
    text.push_str("}}")
}
