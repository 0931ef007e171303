//! The rows: what each line is answered, compared with what it wants, and the line that is printed of a row.

use crate::lined_row::LinedRow;
use crate::lined_rows::lined_rows_of;
use crate::scene::{Scene, take_line};
use anyhow::Result;
use std::alloc::{AllocError, Global};
use std::rt::Files;
use test_guest_rows::{Differences, is_chosen, is_named, show, text_at};

/// Prints the line of each row that is chosen: `NAME: ok`, or what differs.
pub fn show_rows<R: AllocGlobal + Files + Print>(rt: &R, chosen: &[String]) -> Result<()> {
    for file in text_at(rt, "list")?.lines() {
        if is_named(file) {
            show_file(rt, text_at(rt, file)?.as_str(), chosen)?;
        }
    }
    Ok(())
}

/// Prints the lines of the rows of a file's text.
fn show_file<R: AllocGlobal + Print>(rt: &R, text: &str, chosen: &[String]) -> Result<()> {
    for row in &lined_rows_of(rt.alloc(), text)? {
        if is_chosen(chosen, row.name.as_str()) {
            let mut found = Differences::new(rt.alloc());
            let compared = compare_row(rt.alloc(), row, &mut found);
            show(rt, row.name.as_str(), compared, &found)?;
        }
    }
    Ok(())
}

/// Makes a row for each of its values, and notes what isn't as wanted.
fn compare_row(alloc: Global, row: &LinedRow, found: &mut Differences) -> Result<()> {
    if row.values.is_empty() {
        return compare_once(alloc, row, "", found);
    }
    for value in &row.values {
        compare_once(alloc, row, value.as_str(), found)?;
    }
    Ok(())
}

/// Takes the lines of a row one by one, with this value in the place of `{}`, and notes each whose answer isn't the wanted one.
fn compare_once(alloc: Global, row: &LinedRow, value: &str, found: &mut Differences) -> Result<()> {
    let how = how_of(alloc, value)?;
    let mut scene = Scene::new(alloc)?;
    for line in &row.lines {
        let line = line.as_str().replace(alloc, "{}", value)?;
        let (asked, wanted) = line
            .as_str()
            .split_once(" -> ")
            .unwrap_or((line.as_str(), ""));
        scene.answer.clear();
        take_line(&mut scene, asked)?;
        found.expect_text(scene.answer.text(), wanted, asked, how.as_str());
    }
    Ok(())
}

/// What stands between a line that isn't as wanted and its answer: the row's value, if it has one.
fn how_of(alloc: Global, value: &str) -> Result<String, AllocError> {
    if value.is_empty() {
        return String::from_str(alloc, "gives");
    }
    format!(in alloc; "at {value} gives")
}
