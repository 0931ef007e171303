//! The four lines of a digest.
ghost use Rattle.std.specs.Prelude.{◌≡◌, ◌++◌, OnOk};
ghost use Rattle.std.specs.String.{string_bytes};
ghost use Rattle.run_digest.specs.Texts.{digest_lines, hash_text};

use crate::outcome_text::OutcomeText;
use std::alloc::AllocError;
use std::fmt::Write;
use text_output::write_hexadecimal;
use token::RunOutcome;

/// Appends the lines of a digest with these hashes.
pub(crate) fn write_digest(
    text: &mut String,
    outcome: RunOutcome,
    output: &[u8; 32],
    memory: &[u8; 32],
    trace: &[u8; 32],
) -> Result<(), AllocError>
    ensures { OnOk result (string_bytes text.new ≡ string_bytes text.old ++ digest_lines outcome output.now memory.now trace.now) }
{
    write!(text, "outcome {}\noutput ", OutcomeText(outcome))?;
    write_hash(text, output)?;
    text.push_str("\nmemory ")?;
    write_hash(text, memory)?;
    text.push_str("\ntrace ")?;
    write_hash(text, trace)?;
    text.push_str("\n")
}

/// Appends a hash as hexadecimal digits.
fn write_hash(text: &mut String, hash: &[u8; 32]) -> Result<(), AllocError>
    ensures { OnOk result (string_bytes text.new ≡ string_bytes text.old ++ hash_text hash.now) }
{
    for byte in hash {
        write_hexadecimal(text, 2, u32::from(*byte))?;
    }
    Ok(())
}
