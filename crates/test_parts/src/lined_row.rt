//! A row of a file of rows: lines that are taken one by one.
use std::alloc::{AllocError, Global};

/// What one row has, as its file says it.
#[derive(Drop)]
pub struct LinedRow {
    pub name: String,
    /// The row is made once for each of these, or once if there are none.
    pub values: Vec<String>,
    /// What is given, done and wanted, in this order. A value stands in the place of `{}`.
    pub lines: Vec<String>,
}

impl LinedRow {
    /// A row of this name without a line.
    pub fn new(alloc: Global, name: &str) -> Result<Self, AllocError> {
        Ok(LinedRow {
            name: String::from_str(alloc, name)?,
            values: Vec::new(alloc),
            lines: Vec::new(alloc),
        })
    }
}
