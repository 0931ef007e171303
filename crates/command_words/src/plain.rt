//! The plain form of the words of a command line.
ghost use Rattle.std.specs.Prelude.{◌≡◌, IfOk, map, option_map, slice_get};
ghost use Rattle.std.specs.String.{string_bytes};
ghost use Rattle.command_words.specs.Plain as spec;

use crate::numbers::with_numbers;
use std::alloc::{AllocError, Global};
use std::convert::AsStr;

/// The plain form of the words of a command line, of which the first is the program's name: `help` and `help COMMAND` ask for help by the
/// option `--help`, `version` and `-v` are `--version`, and counts have no scale: `--bound 10M` is `--bound 10000000`. All other words
/// stay.
///
/// # Errors
///
/// Only out of memory.
#[tactic(auto, unfolding(crate::specs::Plain::plain_words))]
pub fn plain_words<S: AsStr>(alloc: Global, words: &[S]) -> Result<Vec<String>, AllocError>
    ensures { IfOk result (λ plain. map string_bytes plain.items ≡ spec.plain_words (map S.text words.now)) }
{
    match (word_at(words, 0), word_at(words, 1)) {
        (Some(name), Some("help")) => help_words(alloc, name, word_at(words, 2)),
        (Some(name), Some("version" | "-v")) => words_of(alloc, &[name, "--version"]),
        _ => with_numbers(alloc, words),
    }
}

/// The word at a place, if there is one.
fn word_at<S: AsStr>(words: &[S], place: usize) -> Option<&str>
    ensures { option_map (λ word. word.now) result ≡ slice_get (map S.text words.now) place }
{
    match words.get(place) {
        Some(word) => Some(word.as_str()),
        None => None,
    }
}

/// The words that ask for help of the program, or of the command that is named.
fn help_words(alloc: Global, name: &str, command: Option<&str>) -> Result<Vec<String>, AllocError>
    ensures { IfOk result (λ words. map string_bytes words.items
        ≡ spec.help_words name.now (option_map (λ command. command.now) command.entry)) }
{
    match command {
        Some(command) => words_of(alloc, &[name, command, "--help"]),
        None => words_of(alloc, &[name, "--help"]),
    }
}

/// Some words, as texts of their own.
fn words_of(alloc: Global, words: &[&str]) -> Result<Vec<String>, AllocError>
    ensures { IfOk result (λ own. map string_bytes own.items ≡ map (λ word. word.now) words.now) }
{
    let mut own = Vec::new(alloc);
    for word in words {
        own.push(String::from_str(alloc, word)?)?;
    }
    Ok(own)
}
