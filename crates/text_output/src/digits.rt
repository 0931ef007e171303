//! Hexadecimal digits at the end of a text.
ghost use Rattle.std.specs.Prelude.{◌≡◌, ◌++◌, ◌≤◌, OnOk};
ghost use Rattle.std.specs.String.{string_bytes};
ghost use Rattle.text_output.specs.Digits.{hexadecimal};

use std::alloc::AllocError;

/// Appends the low `count` hexadecimal digits of a number, in lower case.
///
/// # Errors
///
/// Only out of memory. The text may then have some of the digits.
pub fn write_hexadecimal(text: &mut String, count: u32, number: u32) -> Result<(), AllocError>
    requires { count ≤ 8 }
    ensures { OnOk result (string_bytes text.new ≡ string_bytes text.old ++ hexadecimal count number) }
{
    for place in (0..count).rev() {
        let digit = (number >> (4 * place)) % 16;
        text.push(char::from_digit(digit, 16).unwrap())?;
    }
    Ok(())
}
