//! The text of a call of a library: the thread, the time and the place.
ghost use Rattle.std.specs.Prelude.{◌≡◌, ◌++◌, OnOk};
ghost use Rattle.std.specs.String.{string_bytes};
ghost use Rattle.races.specs.LockTexts.{call_text, time_text};

use crate::library_call::LibraryCall;
use crate::place_text::{write_number, write_place_or};
use std::alloc::AllocError;
use symbols::Symbols;

/// Appends a call, as ` thread=1 turn=9+2 in=left+16`, or ` thread=1 turn=9+2 pc=000100a4` if no function covers the place.
#[tactic(auto, unfolding(crate::specs::LockTexts::call_text))]
pub(crate) fn write_call(
    text: &mut String,
    call: LibraryCall,
    symbols: &Symbols,
) -> Result<(), AllocError>
    ensures { OnOk result (string_bytes text.new ≡ string_bytes text.old ++ call_text symbols.now call) }
{
    write_number(text, " thread=", u64::from(call.thread))?;
    write_time(text, " turn=", call)?;
    write_place_or(text, " in=", symbols.function_at(call.pc), " pc=", call.pc)
}

/// Appends the time of a call after the name of its field, as ` turn=9+2`.
#[tactic(auto, unfolding(crate::specs::LockTexts::time_text))]
pub(crate) fn write_time(text: &mut String, name: &str, call: LibraryCall) -> Result<(), AllocError>
    ensures { OnOk result (string_bytes text.new ≡ string_bytes text.old ++ time_text name.now call) }
{
    write_number(text, name, call.turn)?;
    write_number(text, "+", call.instruction)
}
