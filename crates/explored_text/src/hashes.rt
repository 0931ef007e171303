//! An output in a row: the first digits of its SHA-256, and its last line.
ghost use Rattle.std.specs.Prelude.{◌≡◌, ◌++◌, OnOk, encode_utf8, take};
ghost use Rattle.std.specs.List.{flat_map};
ghost use Rattle.std.specs.String.{string_bytes};
ghost use Rattle.explored_text.specs.Tables.{output_text};
ghost use Rattle.run_digest.specs.Texts.{hash_text};

use explored_runs::Row;
use std::alloc::AllocError;
use text_output::write_hexadecimal;

/// Appends the first 16 digits of an output's SHA-256, and its last line.
#[tactic(auto, unfolding(crate::specs::Tables::output_text))]
pub(crate) fn push_output(text: &mut String, row: &Row) -> Result<(), AllocError>
    ensures { OnOk result (string_bytes text.new ≡ string_bytes text.old ++ output_text row.now) }
{
    push_digits(text, &row.ending.digest)?;
    text.push_str("  \"")?;
    push_characters(text, &row.line)?;
    text.push_str("\"")
}

/// Appends the first 16 digits of a hash.
fn push_digits(text: &mut String, hash: &[u8; 32]) -> Result<(), AllocError>
    ensures { OnOk result (string_bytes text.new ≡ string_bytes text.old ++ hash_text (take 8 hash.now)) }
{
    for byte in &hash[..8] {
        write_hexadecimal(text, 2, u32::from(*byte))?;
    }
    Ok(())
}

/// Appends characters, each of which is given by a byte.
fn push_characters(text: &mut String, characters: &[u8]) -> Result<(), AllocError>
    ensures { OnOk result (string_bytes text.new ≡ string_bytes text.old ++ flat_map encode_utf8 characters.now) }
{
    for character in characters {
        text.push(char::from(*character))?;
    }
    Ok(())
}
