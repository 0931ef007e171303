//! In what a phase of a run differs from the same phase without a number.
ghost use Rattle.std.specs.Prelude.{◌≡◌, ◌++◌, OnOk};
ghost use Rattle.std.specs.String.{string_bytes};
ghost use Rattle.explored_text.specs.Commands as spec;

use crate::commands::push_number;
use std::alloc::AllocError;

/// Appends what a phase's list is, in place of the one that it has without a number.
///
/// # Errors
///
/// Only out of memory. The text may then have some of it.
#[tactic(auto, unfolding(crate::specs::Commands::difference_text))]
pub fn push_difference(
    text: &mut String,
    phase: u64,
    drawn: &[u32],
    plain: &[u32],
) -> Result<(), AllocError>
    ensures { OnOk result (string_bytes text.new ≡ string_bytes text.old ++ spec.difference_text phase drawn.now plain.now) }
{
    push_number(text, "  phase ", phase)?;
    text.push_str(": threads")?;
    push_threads(text, drawn)?;
    push_plain(text, drawn, plain)?;
    text.push_str("\n")
}

/// Appends what a phase's list is without a number, unless it is the same, so that only the lengths of segments differ.
fn push_plain(text: &mut String, drawn: &[u32], plain: &[u32]) -> Result<(), AllocError>
    ensures { OnOk result (string_bytes text.new ≡ string_bytes text.old ++ spec.plain_text drawn.now plain.now) }
{
    if drawn == plain {
        return text.push_str(", with shorter segments");
    }
    text.push_str(" in place of")?;
    push_threads(text, plain)
}

/// Appends the line that stands there if no phase is shuffled.
///
/// # Errors
///
/// Only out of memory. The text stays as it was then.
pub fn push_no_phase(text: &mut String) -> Result<(), AllocError>
    ensures { OnOk result (string_bytes text.new ≡ string_bytes text.old ++ spec.no_phase_text) }
{
    text.push_str("  no phase needs to be shuffled\n")
}

/// Appends the numbers of threads, a space before each.
fn push_threads(text: &mut String, threads: &[u32]) -> Result<(), AllocError>
    ensures { OnOk result (string_bytes text.new ≡ string_bytes text.old ++ spec.threads_text threads.now) }
{
    for thread in threads {
        push_number(text, " ", u64::from(*thread))?;
    }
    Ok(())
}
