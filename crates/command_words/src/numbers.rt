//! The counts among the words of a command line.
ghost use Rattle.std.specs.Prelude.{◌≡◌, ◌++◌, IfOk, OnOk, map};
ghost use Rattle.std.specs.String.{string_bytes};
ghost use Rattle.command_words.specs.Numbers as spec;

use crate::scales::{scale_of, split};
use std::alloc::{AllocError, Global};
use std::convert::AsStr;

/// All words, counts among them without a scale.
pub(crate) fn with_numbers<S: AsStr>(alloc: Global, words: &[S]) -> Result<Vec<String>, AllocError>
    ensures { IfOk result (λ plain. map string_bytes plain.items ≡ spec.with_numbers (map S.text words.now)) }
{
    let mut plain = Vec::new(alloc);
    let mut is_number = false;
    for word in words {
        plain.push(plain_word(alloc, word.as_str(), is_number)?)?;
        is_number = takes_number(word.as_str());
    }
    Ok(plain)
}

/// A word, which may be the value of the option before it.
fn plain_word(alloc: Global, word: &str, is_number: bool) -> Result<String, AllocError>
    ensures { IfOk result (λ plain. string_bytes plain ≡ spec.word_text is_number word.now) }
{
    let mut plain = String::new(alloc);
    if is_number {
        push_number(&mut plain, word)?;
    } else {
        push_valued(&mut plain, word)?;
    }
    Ok(plain)
}

/// Appends a word that may be an option with its value after a sign.
#[tactic(auto, unfolding(crate::specs::Numbers::valued_text))]
fn push_valued(plain: &mut String, word: &str) -> Result<(), AllocError>
    ensures { OnOk result (string_bytes plain.new ≡ string_bytes plain.old ++ spec.valued_text word.now) }
{
    match split(word, '=') {
        (name, Some(value)) if takes_number(name) => push_value(plain, name, value),
        _ => plain.push_str(word),
    }
}

/// Appends an option and its value.
fn push_value(plain: &mut String, name: &str, value: &str) -> Result<(), AllocError>
    ensures { OnOk result (string_bytes plain.new ≡ string_bytes plain.old ++ spec.option_text name.now value.now) }
{
    plain.push_str(name)?;
    plain.push_str("=")?;
    push_number(plain, value)
}

/// Appends a number without its scale, and any other text as it is.
#[tactic(auto, unfolding(crate::specs::Numbers::number_text))]
fn push_number(plain: &mut String, text: &str) -> Result<(), AllocError>
    ensures { OnOk result (string_bytes plain.new ≡ string_bytes plain.old ++ spec.number_text text.now) }
{
    match scale_of(text) {
        Some((digits, zeros)) => {
            plain.push_str(digits)?;
            plain.push_str(zeros)
        }
        None => plain.push_str(text),
    }
}

/// Whether a word is an option whose value is a number.
fn takes_number(word: &str) -> bool
    ensures { result ≡ spec.takes_number word.now }
{
    word == "--bound"
        || word == "--quantum"
        || word == "--turn"
        || word == "--workers"
        || word == "--runs"
        || word == "--from"
}
