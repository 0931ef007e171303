//! Reads a schedule's number, with the phases that it shuffles and the choices that it leaves to the program.
ghost use Rattle.std.specs.Prelude.{◌≡◌, ◌<◌, ◌≤◌, IfSome, option_map};
ghost use Rattle.command_requests.specs.Shuffles as spec;

use shuffled_phases::Shuffle;

/// The shuffle that a text says: a number, `:` with its phases, and `/` with its choices.
pub(crate) fn shuffle_of(text: &str) -> Option<Shuffle>
    ensures { result ≡ spec.shuffle_of text.now }
{
    let (schedule, choices) = split(text, '/');
    let (number, phases) = split(schedule, ':');
    let (first, last) = phases_of(phases)?;
    Some(Shuffle {
        number: short_number(number, 1)?,
        first,
        last,
        choices: choices_of(choices)?,
    })
}

/// The first and the last phase that a text says: all if there is none, and from phase 1 on if it says only the last one.
fn phases_of(text: Option<&str>) -> Option<(u64, u64)>
    ensures { result ≡ spec.phases_of (option_map (λ text. text.now) text.entry) }
{
    let Some(text) = text else {
        return Some((1, u64::MAX));
    };
    match split(text, '-') {
        (first, Some(last)) => Some((number(first, 1)?, number(last, 0)?)),
        (last, None) => Some((1, number(last, 0)?)),
    }
}

/// How many choices a text says, 0 if there is none.
fn choices_of(text: Option<&str>) -> Option<u32>
    ensures { result ≡ spec.choices_of (option_map (λ text. text.now) text.entry) }
{
    match text {
        Some(text) => short_number(text, 0),
        None => Some(0),
    }
}

/// A text up to the first such character, and what follows it if there is one.
fn split(text: &str, mark: char) -> (&str, Option<&str>)
    requires { mark < 128 }
    ensures before { result.0.now ≡ spec.before mark text.now }
    ensures after { option_map (λ text. text.now) result.1 ≡ spec.after mark text.now }
{
    match text.split_once(mark) {
        Some((before, after)) => (before, Some(after)),
        None => (text, None),
    }
}

/// The number that a text's digits write, if it is at least so much and fits.
fn short_number(text: &str, least: u64) -> Option<u32>
    ensures { result ≡ spec.number_in 32 least text.now }
{
    u32::try_from(number(text, least)?).ok()
}

/// The number that a text's digits write, if it is at least so much and fits.
fn number(text: &str, least: u64) -> Option<u64>
    ensures { result ≡ spec.number_in 64 least text.now }
{
    if text.starts_with('+') {
        return None;
    }
    match text.parse() {
        Ok(number) if number >= least => Some(number),
        _ => None,
    }
}
