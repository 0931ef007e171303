//! The name of a row, and its line.

use crate::differences::Differences;
use anyhow::Result;

/// Whether a row is chosen: by its name, or by the first words of it. Each is if none is named.
pub fn is_chosen(chosen: &[String], name: &str) -> bool {
    chosen.is_empty() || chosen.iter().any(|words| begins_with(name, words.as_str()))
}

/// Whether a name has these words first.
fn begins_with(name: &str, words: &str) -> bool {
    match name.strip_prefix(words) {
        Some(rest) => rest.is_empty() || rest.starts_with(' '),
        None => false,
    }
}

/// Prints the line of a row: `NAME: ok`, or the error and what differs.
pub fn show<R: AllocGlobal + Print>(
    rt: &R,
    name: &str,
    compared: Result<()>,
    found: &Differences,
) -> Result<()> {
    let text = found.text();
    match compared {
        Err(error) => println!(rt; "{name}: {error} {text}")?,
        Ok(()) if text.is_empty() => println!(rt; "{name}: ok")?,
        Ok(()) => println!(rt; "{name}: {text}")?,
    }
    Ok(())
}
