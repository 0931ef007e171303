//! The line of a fault of the order of locks.
ghost use Rattle.std.specs.Prelude.{◌≡◌, ◌++◌, OnOk};
ghost use Rattle.std.specs.String.{string_bytes};
ghost use Rattle.races.specs.LockTexts.{lock_text, order_text};

use crate::call_text::write_call;
use crate::order_fault::OrderFault;
use crate::place_text::write_place_or;
use std::alloc::AllocError;
use symbols::Symbols;

/// Appends the line of a fault of the order of locks, as `order a+0 b+0 thread=1 turn=9+2 in=left+16 thread=2 turn=12+2 in=right+16`:
/// the first thread takes `b` while it holds `a`, the second one `a` while it holds `b`.
///
/// # Errors
///
/// Only out of memory.
#[tactic(auto, unfolding(crate::specs::LockTexts::order_text))]
pub fn write_order(
    text: &mut String,
    fault: &OrderFault,
    symbols: &Symbols,
) -> Result<(), AllocError>
    ensures { OnOk result (string_bytes text.new ≡ string_bytes text.old ++ order_text symbols.now fault.now) }
{
    text.push_str("order")?;
    write_lock(text, fault.held, symbols)?;
    write_lock(text, fault.taken, symbols)?;
    write_call(text, fault.first, symbols)?;
    write_call(text, fault.second, symbols)?;
    text.push_str("\n")
}

/// Appends a lock, as ` a+0`, or ` address=20000410` if no object covers it.
#[tactic(auto, unfolding(crate::specs::LockTexts::lock_text))]
fn write_lock(text: &mut String, object: u32, symbols: &Symbols) -> Result<(), AllocError>
    ensures { OnOk result (string_bytes text.new ≡ string_bytes text.old ++ lock_text symbols.now object) }
{
    write_place_or(text, " ", symbols.object_at(object), " address=", object)
}
