//! A written schedule, and what its replay must print.
use crate::Program;
use std::alloc::{AllocError, Global};

/// A written schedule.
#[derive(Clone, Copy, Debug)]
pub struct Schedule {
    /// Its name in the data of `test_guest_runs`.
    pub name: &'static str,
    /// The program whose run it is for.
    pub program: Program,
    /// Its text, in parts.
    pub text: &'static [&'static str],
}

impl Schedule {
    /// Its whole text.
    pub fn whole_text(&self, alloc: Global) -> Result<String, AllocError> {
        let mut text = String::new(alloc);
        for part in self.text {
            text.push_str(part)?;
        }
        Ok(text)
    }
}
