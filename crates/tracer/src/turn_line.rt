//! The line of a turn.
ghost use Rattle.std.specs.Prelude.{◌≡◌, ◌++◌, IfOk, OnOk, decimal};
ghost use Rattle.std.specs.String.{string_bytes};
ghost use Rattle.tracer.specs.TraceText.{turn_text, counts_text, call_text, trap_text, stop_text, line_of};

use crate::call_name::write_call_name;
use crate::reply::write_reply;
use abi::Reply;
use hart::Trap;
use itoa::Buffer;
use std::alloc::{AllocError, Global};
use text_output::write_hexadecimal;
use token::{Turn, TurnStop};

/// The line of a turn, with the newline that ends it.
///
/// # Errors
///
/// Only out of memory.
pub fn line(alloc: Global, turn: &Turn) -> Result<String, AllocError>
    ensures { IfOk result (λ t. string_bytes t ≡ line_of turn.now) }
{
    let mut text = String::new(alloc);
    write_line(&mut text, turn)?;
    Ok(text)
}

/// Appends the line of a turn, with the newline that ends it.
///
/// # Errors
///
/// Only out of memory. The text may then have a part of the line.
#[tactic(auto, unfolding(crate::specs::TraceText::line_of))]
pub fn write_line(text: &mut String, turn: &Turn) -> Result<(), AllocError>
    ensures { OnOk result (string_bytes text.new ≡ string_bytes text.old ++ line_of turn.now) }
{
    write_turn(text, turn)?;
    write_stop(text, turn.stop)?;
    match turn.stop {
        TurnStop::Wake { .. } => write_counts(text, 0, 0),
        TurnStop::Call { .. } | TurnStop::Trap { .. } | TurnStop::Quantum { .. } => {
            write_counts(text, turn.changed, turn.ran)
        }
    }
}

/// Appends what a turn did: the part of its line between the thread and the counts.
///
/// # Errors
///
/// Only out of memory. The text may then have a part of it.
pub fn write_stop(text: &mut String, stop: TurnStop) -> Result<(), AllocError>
    ensures { OnOk result (string_bytes text.new ≡ string_bytes text.old ++ stop_text stop) }
{
    match stop {
        TurnStop::Call {
            number,
            arguments,
            reply,
        } => write_call(text, number, arguments, reply),
        TurnStop::Trap { pc, trap } => write_trap(text, pc, trap),
        TurnStop::Wake { mutex } => {
            text.push_str("wake ")?;
            text.push_str(Buffer::new().format(mutex))
        }
        TurnStop::Quantum { pc } => {
            text.push_str("quantum ")?;
            write_hexadecimal(text, 8, pc)
        }
    }
}

/// Appends a call with its arguments, and what it came to.
#[tactic(auto, unfolding(crate::specs::TraceText::call_text))]
fn write_call(
    text: &mut String,
    number: u32,
    arguments: [u32; 3],
    reply: Reply,
) -> Result<(), AllocError>
    ensures { OnOk result (string_bytes text.new ≡ string_bytes text.old ++ call_text number arguments reply) }
{
    write_call_name(text, number)?;
    text.push_str(" ")?;
    write_hexadecimal(text, 8, arguments[0])?;
    text.push_str(" ")?;
    write_hexadecimal(text, 8, arguments[1])?;
    text.push_str(" ")?;
    write_hexadecimal(text, 8, arguments[2])?;
    text.push_str(" -> ")?;
    write_reply(text, reply)
}

/// Appends a trap at this pc.
#[tactic(auto, unfolding(crate::specs::TraceText::trap_text))]
fn write_trap(text: &mut String, pc: u32, trap: Trap) -> Result<(), AllocError>
    ensures { OnOk result (string_bytes text.new ≡ string_bytes text.old ++ trap_text pc trap) }
{
    text.push_str("trap ")?;
    text.push_str(Buffer::new().format(trap.cause.number()))?;
    text.push_str(" ")?;
    write_hexadecimal(text, 8, pc)?;
    text.push_str(" ")?;
    write_hexadecimal(text, 8, trap.value)
}

/// Appends a turn's phase and thread, with which each line begins.
fn write_turn(text: &mut String, turn: &Turn) -> Result<(), AllocError>
    ensures { OnOk result (string_bytes text.new ≡ string_bytes text.old ++ turn_text turn.now) }
{
    text.push_str(Buffer::new().format(turn.phase))?;
    text.push_str(" ")?;
    text.push_str(Buffer::new().format(turn.thread))?;
    text.push_str(" ")
}

/// Appends how many bytes changed and how many instructions ran, and the newline.
fn write_counts(text: &mut String, changed: u64, ran: u64) -> Result<(), AllocError>
    ensures { OnOk result (string_bytes text.new ≡ string_bytes text.old ++ counts_text changed ran) }
{
    text.push_str(" changed=")?;
    text.push_str(Buffer::new().format(changed))?;
    text.push_str(" ran=")?;
    text.push_str(Buffer::new().format(ran))?;
    text.push_str("\n")
}
