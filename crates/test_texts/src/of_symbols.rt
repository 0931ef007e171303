//! What the addresses of files are called by their symbols: of files whose answers are known, and of random damaged ones that a plain
//! reader looks at too.

mod change;
mod dice;
mod file;
mod literal;
mod named;
mod names;
mod random;
mod row;
mod rows;

use anyhow::Result;
pub use file::{Written, file_of};
pub use names::show_names;
pub use random::show_random;

/// How many random files are looked at if no number is given.
const FILES: u32 = 10_000;

/// Shows the rows, and some random files.
pub fn show_all<R: AllocGlobal + Print>(rt: &R) -> Result<()> {
    row::show_rows(rt, &rows::ROWS)?;
    show_random(rt, FILES, 1)
}
