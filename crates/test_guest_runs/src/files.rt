//! The guest programs of the files of `data/`.

use crate::guest::Guest;
use crate::guest_text::guest_of;
use anyhow::Result;
use std::rt::Files;
use test_guest_rows::{is_named, text_at};

/// The text of a file that is called after a program.
fn text_of<R: AllocGlobal + Files>(rt: &R, name: &str, kind: &str) -> Result<String> {
    let file = format!(in rt.alloc(); "{name}.{kind}")?;
    text_at(rt, file.as_str())
}

/// The guests of the list, in its order.
pub fn guests<R: AllocGlobal + Files>(rt: &R) -> Result<Vec<Guest>> {
    let mut found = Vec::new(rt.alloc());
    for name in text_at(rt, "list")?.lines() {
        if is_named(name) {
            found.push(guest_at(rt, name)?)?;
        }
    }
    Ok(found)
}

/// A guest with all texts of its files.
fn guest_at<R: AllocGlobal + Files>(rt: &R, name: &str) -> Result<Guest> {
    let text = text_of(rt, name, "guest")?;
    let mut guest = guest_of(rt.alloc(), name, text.as_str())?;
    if guest.is_sample {
        guest.listing = text_of(rt, name, "listing")?;
    }
    for run in &mut guest.runs {
        if run.is_sample {
            run.trace = text_of(rt, name, "trace")?;
            run.report = text_of(rt, name, "report")?;
        }
    }
    Ok(guest)
}
