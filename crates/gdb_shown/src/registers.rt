//! What gdb is shown of a thread's registers.
ghost use Rattle.std.specs.Prelude.{◌≡◌, ◌<◌, IfOk, option_map};
ghost use Rattle.std.specs.String.{string_bytes};
ghost use Rattle.timeline.specs.Present.{moment_of};
ghost use Rattle.gdb_shown.specs.Registers.{one_register_shown, register_shown, registers_shown};

use gdb_packets::write_word;
use std::alloc::{AllocError, Global};
use timeline::Timeline;

/// How many registers there are, pc the last.
const REGISTERS: u64 = 33;

/// The number of pc among the registers.
pub const PC: usize = 32;

/// A register of a thread by its number, 0 if the thread isn't created.
pub fn register(timeline: &Timeline, thread: u32, number: usize) -> u32
    requires { number < 33 }
    ensures { result ≡ register_shown (moment_of timeline.now.present) thread number }
{
    match timeline.hart(thread) {
        Some(hart) if number < PC => hart.reg(number),
        Some(hart) => hart.pc(),
        None => 0,
    }
}

/// The digits of all registers of a thread.
#[tactic(auto, unfolding(crate::specs::Registers::first_registers))]
pub fn registers_text(alloc: Global, timeline: &Timeline, thread: u32) -> Result<String, AllocError>
    ensures { IfOk result (λ text. string_bytes text ≡ registers_shown (moment_of timeline.now.present) thread) }
{
    let mut text = String::new(alloc);
    for number in 0..33usize {
        write_word(&mut text, register(timeline, thread, number))?;
    }
    Ok(text)
}

/// The digits of one register of a thread, none if there is no such register.
pub fn register_text(
    alloc: Global,
    timeline: &Timeline,
    thread: u32,
    number: u64,
) -> Result<Option<String>, AllocError>
    ensures { IfOk result (λ text. option_map string_bytes text ≡ one_register_shown (moment_of timeline.now.present) thread number) }
{
    if number >= REGISTERS {
        return Ok(None);
    }
    let mut text = String::new(alloc);
    write_word(&mut text, register(timeline, thread, number as usize))?;
    Ok(Some(text))
}
