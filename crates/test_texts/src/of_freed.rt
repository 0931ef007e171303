//! What the recorder of accesses of dead bytes says of histories: of rows whose findings are known.

mod histories;
mod rows;

use anyhow::Result;

/// Shows the rows.
pub fn show_all<R: AllocGlobal + Print>(rt: &R) -> Result<()> {
    rows::show_rows(rt)
}
