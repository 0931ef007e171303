//! The text of a file of rows in `data/`. Reads a text, and no file.

use crate::lined_row::LinedRow;
use std::alloc::{AllocError, Global};
use test_guest_rows::{is_named, small, split};

/// The rows that a text says. A line of no row is one without lines, which no row wants.
pub fn lined_rows_of(alloc: Global, text: &str) -> Result<Vec<LinedRow>, AllocError> {
    let mut rows = Vec::new(alloc);
    for line in text.lines().filter(|line| is_named(line)) {
        match (split(line), rows.last_mut()) {
            (("row", name), _) => rows.push(LinedRow::new(alloc, name)?)?,
            (_, Some(row)) => take_line(alloc, row, line)?,
            (_, None) => rows.push(LinedRow::new(alloc, line)?)?,
        }
    }
    Ok(rows)
}

/// Takes a line of a row.
fn take_line(alloc: Global, row: &mut LinedRow, line: &str) -> Result<(), AllocError> {
    match split(line) {
        ("for", value) => push(alloc, &mut row.values, value),
        ("each", words) => push_values(alloc, &mut row.values, words),
        _ => push(alloc, &mut row.lines, line),
    }
}

/// Appends a text.
fn push(alloc: Global, texts: &mut Vec<String>, text: &str) -> Result<(), AllocError> {
    Ok(texts.push(String::from_str(alloc, text)?)?)
}

/// Appends these words. `FIRST..LAST` are the numbers from the first to the last, both included.
fn push_values(alloc: Global, values: &mut Vec<String>, words: &str) -> Result<(), AllocError> {
    for word in words.split_whitespace() {
        match word.split_once("..") {
            Some((first, last)) => {
                for number in small(first)..=small(last) {
                    values.push(number.to_string(alloc)?)?;
                }
            }
            None => push(alloc, values, word)?,
        }
    }
    Ok(())
}
