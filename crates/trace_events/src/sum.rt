//! Sums that are refused if they don't fit.
ghost use Rattle.std.specs.Prelude.{◌≡◌, ◌+◌, IfOk};

use token::TurnFault;

/// The sum of two numbers. One that doesn't fit is refused as if memory ran out: no run comes near it, since all its
/// threads together execute fewer than 2^49 instructions.
pub(crate) fn sum(one: u64, other: u64) -> Result<u64, TurnFault>
    ensures { IfOk result (λ total. total ≡ one + other) }
{
    match one.checked_add(other) {
        Some(total) => Ok(total),
        None => Err(TurnFault::OutOfMemory),
    }
}
