//! The texts of stops: where the run stands and why, and how it ends.
ghost use Rattle.std.specs.Prelude.{◌≡◌, ◌++◌, ◌<◌, IfOk, OnOk};
ghost use Rattle.std.specs.String.{string_bytes};
ghost use Rattle.text_output.specs.Digits.{hexadecimal};
ghost use Rattle.timeline.specs.Present.{moment_of};
ghost use Rattle.gdb_shown.specs.Stops.{end_line, exit_shown, register_told, stop_shown, trap_line};

use crate::registers::{PC, register};
use crate::signals::signal_of;
use crate::threads::write_id;
use gdb_packets::{write_byte, write_word};
use hart::Trap;
use std::alloc::{AllocError, Global};
use text_output::write_hexadecimal;
use timeline::Timeline;
use token::RunOutcome;

/// The status of a program of which threads are left and none can run.
const DEADLOCK: u8 = 121;

/// The numbers of ra, sp and fp among the registers.
const RA: usize = 1;

const SP: usize = 2;

const FP: usize = 8;

/// The text of a stop with a signal, for a reason that may be empty, at a thread. It tells pc, sp, fp and ra, so that gdb
/// doesn't ask for them.
#[tactic(auto, unfolding(crate::specs::Stops::stop_shown))]
pub fn stop_text(
    alloc: Global,
    timeline: &Timeline,
    signal: u8,
    reason: &str,
    thread: u32,
) -> Result<Vec<u8>, AllocError>
    ensures { IfOk result (λ text. text.items ≡ stop_shown (moment_of timeline.now.present) signal reason.now thread) }
{
    let mut text = String::from_str(alloc, "T")?;
    write_byte(&mut text, signal)?;
    text.push_str(reason)?;
    text.push_str("thread:")?;
    write_id(&mut text, thread)?;
    text.push_str(";")?;
    tell_register(&mut text, timeline, thread, PC)?;
    tell_register(&mut text, timeline, thread, SP)?;
    tell_register(&mut text, timeline, thread, FP)?;
    tell_register(&mut text, timeline, thread, RA)?;
    Ok(text.into_bytes())
}

/// Appends a register of a thread, by its number.
#[tactic(auto, unfolding(crate::specs::Stops::register_told))]
fn tell_register(
    text: &mut String,
    timeline: &Timeline,
    thread: u32,
    number: usize,
) -> Result<(), AllocError>
    requires { number < 33 }
    ensures { OnOk result
        (string_bytes text.new ≡ string_bytes text.old ++ register_told (moment_of timeline.now.present) thread number) }
{
    write_byte(text, number as u8)?;
    text.push_str(":")?;
    write_word(text, register(timeline, thread, number))?;
    text.push_str(";")
}

/// The line that says how a run ends.
#[tactic(auto, unfolding(crate::specs::Stops::end_line))]
pub fn end_text(alloc: Global, outcome: RunOutcome) -> Result<String, AllocError>
    ensures { IfOk result (λ text. string_bytes text ≡ end_line outcome) }
{
    match outcome {
        RunOutcome::Exit(status) => {
            format!(in alloc; "dthreads: the run ends here: exit {status}\n")
        }
        RunOutcome::Finished(value) => {
            format!(in alloc; "dthreads: the run ends here: finished {value}\n")
        }
        RunOutcome::Deadlock => String::from_str(alloc, "dthreads: the run ends here: deadlock\n"),
        RunOutcome::Trap { thread, pc, trap } => trap_text(alloc, thread, pc, trap),
    }
}

/// The line of a trap.
#[tactic(auto, unfolding(crate::specs::Stops::trap_line))]
fn trap_text(alloc: Global, thread: u32, pc: u32, trap: Trap) -> Result<String, AllocError>
    ensures { IfOk result (λ text. string_bytes text ≡ trap_line thread pc trap) }
{
    let mut text = format!(in alloc; "dthreads: trap thread={thread} pc=")?;
    write_hexadecimal(&mut text, 8, pc)?;
    let cause = trap.cause.number();
    write!(text, " cause={cause} value=")?;
    write_hexadecimal(&mut text, 8, trap.value)?;
    text.push_str("\n")?;
    Ok(text)
}

/// The text by which the program ends for gdb, as the run ended.
pub fn exit_text(alloc: Global, outcome: RunOutcome) -> Result<Vec<u8>, AllocError>
    ensures { IfOk result (λ text. text.items ≡ exit_shown outcome) }
{
    match outcome {
        RunOutcome::Exit(status) => ended(alloc, "W", (status % 256) as u8),
        RunOutcome::Finished(value) => ended(alloc, "W", (value % 256) as u8),
        RunOutcome::Deadlock => ended(alloc, "W", DEADLOCK),
        RunOutcome::Trap { trap, .. } => ended(alloc, "X", signal_of(trap.cause)),
    }
}

/// A letter and the digits of a number.
fn ended(alloc: Global, kind: &str, number: u8) -> Result<Vec<u8>, AllocError>
    ensures { IfOk result (λ text. text.items ≡ kind.now ++ hexadecimal 2 number) }
{
    let mut text = String::from_str(alloc, kind)?;
    write_byte(&mut text, number)?;
    Ok(text.into_bytes())
}
