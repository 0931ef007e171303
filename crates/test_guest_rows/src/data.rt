//! The files of `data/`. The program runs in that folder, or in the one that has it.

use anyhow::{Result, anyhow};
use std::fs;
use std::rt::Files;

/// The text of a file.
pub fn text_at<R: AllocGlobal + Files>(rt: &R, name: &str) -> Result<String> {
    let is_here = fs::exists(rt, "list")?;
    let folder = if is_here { "." } else { "data" };
    let path = format!(in rt.alloc(); "{folder}/{name}")?;
    match fs::read_to_string(rt, path.as_str()) {
        Ok(text) => Ok(text),
        Err(_) => Err(anyhow!("cannot read {path}")),
    }
}

/// Whether a line of a list names something.
pub fn is_named(line: &str) -> bool {
    !line.is_empty() && !line.starts_with('#')
}
