//! Names of one file, and of two.

use crate::words::split;
use output_files::{FileName, Files, HostFiles};

/// Whether two names are of one file, or of two, whichever comes first.
pub fn is_one(rt: &HostRuntime, verb: &str, rest: &str) -> bool {
    let (one, other) = split(rest);
    let (one, other) = (name_of(one), name_of(other));
    let wanted = verb == "one";
    is_said(rt, one, other, wanted) && is_said(rt, other, one, wanted)
}

/// Whether this is said of two names.
fn is_said(rt: &HostRuntime, one: FileName<'_>, other: FileName<'_>, wanted: bool) -> bool {
    match HostFiles::new(rt).is_one_file(rt.alloc(), one, other) {
        Ok(is_one) => is_one == wanted,
        Err(_) => false,
    }
}

/// The name of the file at a path, or, after `part:`, of its part.
fn name_of(text: &str) -> FileName<'_> {
    match text.strip_prefix("part:") {
        Some(path) => FileName::PartOf(path),
        None => FileName::At(text),
    }
}
