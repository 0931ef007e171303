//! What of a row is not as wanted.
use std::alloc::{AllocError, Global};

/// What of a row isn't as wanted.
#[derive(Drop)]
pub struct Differences {
    text: String,
    /// Whether memory for the text ran out.
    is_lost: bool,
}

impl Differences {
    /// Nothing yet.
    pub fn new(alloc: Global) -> Self {
        Differences {
            text: String::new(alloc),
            is_lost: false,
        }
    }

    /// What was noted, or an empty text.
    pub fn text(&self) -> &str {
        if self.is_lost {
            return "out of memory";
        }
        self.text.as_str()
    }

    /// Notes this unless it is as wanted.
    pub fn expect(&mut self, is_as_wanted: bool, what: &str, how: &str) {
        if !is_as_wanted {
            let noted = self.note(what, how, "");
            self.keep(noted);
        }
    }

    /// Notes a text that isn't the wanted one, with the first line that differs.
    pub fn expect_text(&mut self, found: &str, wanted: &str, what: &str, how: &str) {
        if found != wanted {
            let noted = self.note(what, how, first_difference(found, wanted));
            self.keep(noted);
        }
    }

    /// Appends what isn't as wanted, and a line of it unless it is empty.
    fn note(&mut self, what: &str, how: &str, line: &str) -> Result<(), AllocError> {
        let before = if self.text.is_empty() { "" } else { "; " };
        write!(self.text, "{before}{what} {how}")?;
        if line.is_empty() {
            return Ok(());
        }
        write!(self.text, " ({line})")
    }

    /// Keeps whether memory for the text ran out.
    fn keep(&mut self, noted: Result<(), AllocError>) {
        self.is_lost = self.is_lost || noted.is_err();
    }
}

/// The first line that isn't the wanted one, or that one lacks.
fn first_difference<'a>(found: &'a str, wanted: &str) -> &'a str {
    let mut wanted_lines = wanted.lines();
    for line in found.lines() {
        if wanted_lines.next() != Some(line) {
            return line;
        }
    }
    "a line lacks"
}
