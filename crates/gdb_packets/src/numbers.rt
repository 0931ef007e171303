//! Numbers of any length in a packet.
ghost use Rattle.std.specs.Prelude.{◌≡◌, ℕ, ◌+◌, ◌-◌, ◌*◌, ◌^◌, ◌<◌, min, MatchOption, SomeIff, option_map};
ghost use Rattle.std.specs.Char.{digit_value};
ghost use Rattle.gdb_packets.specs.Numbers.{AreNumbers, IsNumber, parts_at};

/// The value of a hexadecimal digit in either case, none if the byte is no digit.
pub(crate) fn digit_of(byte: u8) -> Option<u8>
    ensures { SomeIff result (digit_value byte < 16) (digit_value byte) }
{
    let digit = char::from(byte).to_digit(16)?;
    Some(digit as u8)
}

/// The number of these hexadecimal digits, of which there is at least one; none if they are no digits. A number that
/// doesn't fit in 64 bits is the greatest one that does.
#[tactic(auto, using(crate::proofs::Values::value_more))]
pub fn number(digits: &[u8]) -> Option<u64>
    ensures { MatchOption result ((number : ℕ) → ¬ IsNumber digits.now number) (IsNumber digits.now) }
{
    if digits.is_empty() {
        return None;
    }
    let mut value = 0u64;
    for byte in digits {
        let digit = digit_of(*byte)?;
        value = with_digit(value, digit);
    }
    Some(value)
}

/// A number with one more digit, or the greatest that fits.
fn with_digit(value: u64, digit: u8) -> u64
    ensures { result ≡ min (16 * value + digit) (2 ^ 64 - 1) }
{
    value.saturating_mul(16).saturating_add(u64::from(digit))
}

/// The two numbers of a text with a `,` between.
pub(crate) fn two_numbers(text: &[u8]) -> Option<(u64, u64)>
    ensures { MatchOption result ((first second : ℕ) → ¬ AreNumbers text.now first second)
        (λ numbers. AreNumbers text.now numbers.0 numbers.1) }
{
    let (first, second) = split_at_byte(text, b',')?;
    Some((number(first)?, number(second)?))
}

/// The parts of a text before and after the first such byte, none if it has no such byte.
pub fn split_at_byte(text: &[u8], byte: u8) -> Option<(&[u8], &[u8])>
    ensures { option_map (λ parts. record { 0 = parts.0.now; 1 = parts.1.now }) result ≡ parts_at byte text.now }
{
    for (place, other) in text.iter().enumerate() {
        if *other == byte {
            return Some((&text[..place], &text[place + 1..]));
        }
    }
    None
}
