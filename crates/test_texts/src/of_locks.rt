//! What the recorders of locks say of histories: of rows whose faults and misuses are known.

mod histories;
mod rows;

use anyhow::Result;

/// Shows the rows.
pub fn show_all<R: AllocGlobal + Print>(rt: &R) -> Result<()> {
    rows::show_rows(rt)
}
