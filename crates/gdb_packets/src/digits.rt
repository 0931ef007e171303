//! Bytes and words as hexadecimal digits.
ghost use Rattle.std.specs.Prelude.{◌≡◌, ◌≢◌, ◌<◌, ◌++◌, ◌∷◌, [], OnOk, IfOk, IfSome, MatchOption, length, option_map};
ghost use Rattle.std.specs.Int.{to_le_bytes, w32};
ghost use Rattle.std.specs.String.{string_bytes};
ghost use Rattle.text_output.specs.Digits.{hexadecimal};
ghost use Rattle.gdb_packets.specs.Digits.{byte_in, bytes_in, digits_of};

use crate::numbers::digit_of;
use std::alloc::{AllocError, Global};
use text_output::write_hexadecimal;

/// Appends the two digits of a byte.
pub fn write_byte(text: &mut String, byte: u8) -> Result<(), AllocError>
    ensures { OnOk result (string_bytes text.new ≡ string_bytes text.old ++ hexadecimal 2 byte) }
{
    write_hexadecimal(text, 2, u32::from(byte))
}

/// Appends the two digits of each byte.
pub fn write_bytes(text: &mut String, bytes: &[u8]) -> Result<(), AllocError>
    ensures { OnOk result (string_bytes text.new ≡ string_bytes text.old ++ digits_of bytes.now) }
{
    for byte in bytes {
        write_byte(text, *byte)?;
    }
    Ok(())
}

/// Appends the eight digits of a word as they stand in memory, the lowest byte first.
pub fn write_word(text: &mut String, word: u32) -> Result<(), AllocError>
    ensures { OnOk result (string_bytes text.new ≡ string_bytes text.old ++ digits_of (to_le_bytes w32 word)) }
{
    write_bytes(text, &word.to_le_bytes())
}

/// The bytes that pairs of digits stand for, none if the digits aren't pairs of such.
pub fn bytes_of_digits(alloc: Global, digits: &[u8]) -> Result<Option<Vec<u8>>, AllocError>
    ensures { IfOk result (λ bytes. option_map (λ bytes. bytes.items) bytes ≡ bytes_in digits.now) }
{
    let mut bytes = Vec::new(alloc);
    let mut rest = digits;
    while !rest.is_empty() {
        let Some((byte, behind)) = first_byte_of(rest) else {
            return Ok(None);
        };
        bytes.push(byte)?;
        rest = behind;
    }
    Ok(Some(bytes))
}

/// The byte of the first pair of digits and what stands behind it, none if there is no such pair.
fn first_byte_of(digits: &[u8]) -> Option<(u8, &[u8])>
    requires { digits.now ≢ [] }
    ensures bytes { MatchOption result (bytes_in digits.now ≡ None)
        (λ first. bytes_in digits.now ≡ option_map (λ bytes. first.0 ∷ bytes) (bytes_in first.1.now)) }
    ensures fewer { IfSome result (λ first. length first.1.now < length digits.now) }
{
    if digits.len() < 2 {
        return None;
    }
    let Some(byte) = byte_of(digits[0], digits[1]) else {
        return None;
    };
    Some((byte, &digits[2..]))
}

/// The byte that two digits stand for, none if one is no digit.
fn byte_of(high: u8, low: u8) -> Option<u8>
    ensures { result ≡ byte_in high low }
{
    let (high, low) = (digit_of(high)?, digit_of(low)?);
    Some(16 * high + low)
}
