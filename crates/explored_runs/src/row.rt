//! A row of a table of runs.
use crate::ending::Ending;

/// The runs that ended alike.
#[derive(Debug, Drop)]
pub struct Row {
    /// How they ended, and what they wrote.
    pub ending: Ending,
    /// The last line of the first one's output: at most 40 characters of printable ASCII.
    pub line: Vec<u8>,
    /// How many there are.
    pub runs: u32,
    /// The number of the first one.
    pub first: u32,
}
