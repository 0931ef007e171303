//! The line of a trap.
ghost use Rattle.std.specs.Prelude.{◌≡◌, ◌++◌, IfOk, OnOk};
ghost use Rattle.std.specs.String.{string_bytes};
ghost use Rattle.explanations.specs.Traps as spec;

use crate::places::write_end;
use crate::trapped::Trapped;
use crate::words::word_name;
use hart::Cause;
use std::alloc::{AllocError, Global};
use symbols::Symbols;
use text_output::write_hexadecimal;

/// The line of a trap: what the thread did, and the function that it was in, as `store to 2000f69c, below the stack of thread 1, in
/// work+20`.
///
/// # Errors
///
/// Only out of memory.
#[tactic(auto, unfolding(crate::specs::Traps::trap_line))]
pub fn trap_text(alloc: Global, trapped: &Trapped, symbols: &Symbols) -> Result<String, AllocError>
    ensures { IfOk result (λ text. string_bytes text ≡ spec.trap_line symbols.now trapped.now) }
{
    let mut text = String::new(alloc);
    write_cause(&mut text, trapped)?;
    write_end(&mut text, symbols, trapped.pc)?;
    Ok(text)
}

/// Appends what a thread did that trapped.
fn write_cause(text: &mut String, trapped: &Trapped) -> Result<(), AllocError>
    ensures { OnOk result (string_bytes text.new ≡ string_bytes text.old ++ spec.cause_text trapped.now trapped.now.trap.cause) }
{
    let value = trapped.trap.value;
    match trapped.trap.cause {
        Cause::TargetMisaligned => write_word(text, "jump to ", value, ", no multiple of 4"),
        Cause::FetchDenied => write_word(text, "fetch at ", value, ", where no code is"),
        Cause::IllegalInstruction => write_illegal(text, value),
        Cause::Breakpoint => text.push_str("ebreak"),
        Cause::LoadMisaligned => {
            write_word(text, "load from ", value, ", no multiple of its size")
        }
        Cause::LoadDenied => write_denied(text, "load from ", trapped, ", which can't be loaded"),
        Cause::StoreMisaligned => write_word(text, "store to ", value, ", no multiple of its size"),
        Cause::StoreDenied => {
            write_denied(text, "store to ", trapped, ", which can't be stored to")
        }
        Cause::BoundReached => write_bound(text, trapped),
    }
}

/// Appends a word between two texts.
#[tactic(auto, unfolding(crate::specs::Traps::word_text))]
fn write_word(text: &mut String, before: &str, word: u32, after: &str) -> Result<(), AllocError>
    ensures { OnOk result (string_bytes text.new ≡ string_bytes text.old ++ spec.word_text before.now word after.now) }
{
    text.push_str(before)?;
    write_hexadecimal(text, 8, word)?;
    text.push_str(after)
}

/// Appends a word that is no instruction of RV32IM, and what it is.
fn write_illegal(text: &mut String, word: u32) -> Result<(), AllocError>
    ensures { OnOk result (string_bytes text.new ≡ string_bytes text.old ++ spec.illegal_text word) }
{
    write_word(text, "the word ", word, ", ")?;
    text.push_str(word_name(word))
}

/// Appends an access that is denied.
#[tactic(auto, unfolding(crate::specs::Traps::denied_text))]
fn write_denied(
    text: &mut String,
    before: &str,
    trapped: &Trapped,
    after: &str,
) -> Result<(), AllocError>
    ensures { OnOk result (string_bytes text.new ≡ string_bytes text.old ++ spec.denied_text before.now trapped.now after.now) }
{
    if !is_below_stack(trapped) {
        return write_word(text, before, trapped.trap.value, after);
    }
    write_word(
        text,
        before,
        trapped.trap.value,
        ", below the stack of thread ",
    )?;
    let thread = trapped.thread;
    write!(text, "{thread}")
}

/// Whether a denied access is below the stack of its thread.
fn is_below_stack(trapped: &Trapped) -> bool
    ensures { result ≡ spec.is_below_stack trapped.now }
{
    let (value, lowest) = (
        u64::from(trapped.trap.value),
        u64::from(trapped.stack_pointer),
    );
    trapped.is_writable_above && lowest <= value && value < lowest + 4096
}

/// Appends that a thread executed all that it may.
#[tactic(auto, unfolding(crate::specs::Traps::bound_text))]
fn write_bound(text: &mut String, trapped: &Trapped) -> Result<(), AllocError>
    ensures { OnOk result (string_bytes text.new ≡ string_bytes text.old ++ spec.bound_text trapped.now) }
{
    let (thread, bound) = (trapped.thread, trapped.bound);
    write!(text, "thread {thread} executed all of --bound {bound}")
}
