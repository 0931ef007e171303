//! Counts with a scale: 10M, 1e6.
ghost use Rattle.std.specs.Prelude.{◌≡◌, ◌<◌, option_map};
ghost use Rattle.std.specs.List.{list_all};
ghost use Rattle.command_words.specs.Scales as spec;

/// The digits of a count with a scale, and the zeros that its scale stands for: K, M and G are the powers of 1,000, and `e` is followed by
/// how many zeros there are, 0 to 12.
pub(crate) fn scale_of(text: &str) -> Option<(&str, &'static str)>
    ensures { option_map (λ parts. (parts.0.now, parts.1.now)) result ≡ spec.scale_of text.now }
{
    if let Some(digits) = scaled(text, 'K') {
        return Some((digits, "000"));
    }
    if let Some(digits) = scaled(text, 'M') {
        return Some((digits, "000000"));
    }
    if let Some(digits) = scaled(text, 'G') {
        return Some((digits, "000000000"));
    }
    raised(text)
}

/// The digits before a mark that ends a text, if they are some.
fn scaled(text: &str, mark: char) -> Option<&str>
    requires { mark < 128 }
    ensures { option_map (λ digits. digits.now) result ≡ spec.scaled mark text.now }
{
    match split(text, mark) {
        (digits, Some(rest)) if is_numeral(digits) && rest.is_empty() => Some(digits),
        _ => None,
    }
}

/// The digits and the zeros of a count with an exponent.
fn raised(text: &str) -> Option<(&str, &'static str)>
    ensures { option_map (λ parts. (parts.0.now, parts.1.now)) result ≡ spec.raised text.now }
{
    let (digits, exponent) = split(text, 'e');
    match zeros_after(exponent) {
        Some(zeros) if is_numeral(digits) => Some((digits, zeros)),
        _ => None,
    }
}

/// The zeros that an exponent stands for, if there is one.
fn zeros_after(exponent: Option<&str>) -> Option<&'static str>
    ensures { option_map (λ zeros. zeros.now) result ≡ spec.zeros_after (option_map (λ exponent. exponent.now) exponent.entry) }
{
    match exponent {
        Some(exponent) => zeros_by(exponent),
        None => None,
    }
}

/// So many zeros, 0 to 12.
fn zeros_by(exponent: &str) -> Option<&'static str>
    ensures { option_map (λ zeros. zeros.now) result ≡ spec.zeros_by exponent.now }
{
    match exponent {
        "0" => Some(""),
        "1" => Some("0"),
        "2" => Some("00"),
        "3" => Some("000"),
        "4" => Some("0000"),
        "5" => Some("00000"),
        "6" => Some("000000"),
        "7" => Some("0000000"),
        "8" => Some("00000000"),
        "9" => Some("000000000"),
        "10" => Some("0000000000"),
        "11" => Some("00000000000"),
        "12" => Some("000000000000"),
        _ => None,
    }
}

/// A text up to the first such character, and what follows it if there is one.
pub(crate) fn split(text: &str, mark: char) -> (&str, Option<&str>)
    requires { mark < 128 }
    ensures before { result.0.now ≡ spec.before mark text.now }
    ensures after { option_map (λ text. text.now) result.1 ≡ spec.after mark text.now }
{
    match text.split_once(mark) {
        Some((before, after)) => (before, Some(after)),
        None => (text, None),
    }
}

/// Whether a text is one decimal digit or more, and nothing else.
fn is_numeral(text: &str) -> bool
    ensures { result ≡ spec.is_numeral text.now }
{
    !text.is_empty() && has_digits_alone(text.as_bytes())
}

/// Whether each of these bytes is a decimal digit.
fn has_digits_alone(bytes: &[u8]) -> bool
    ensures { result ≡ list_all spec.is_digit bytes.now }
{
    bytes.iter().all(|byte| is_digit(*byte))
}

/// Whether a byte is a decimal digit.
fn is_digit(byte: u8) -> bool
    ensures { result ≡ spec.is_digit byte }
{
    b'0' <= byte && byte <= b'9'
}
