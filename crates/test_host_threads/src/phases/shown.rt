//! The line that is printed of a row.

use anyhow::Result;

/// Prints whether a row goes as wanted.
pub fn show<R: Print>(rt: &R, name: &str, is_so: bool) -> Result<()> {
    let said = said_of(is_so);
    Ok(println!(rt; "{name}: {said}")?)
}

/// Prints whether a row goes as wanted with this number.
pub fn show_at<R: Print>(rt: &R, name: &str, number: u32, is_so: bool) -> Result<()> {
    let said = said_of(is_so);
    Ok(println!(rt; "{name} {number}: {said}")?)
}

/// What is said of a row.
fn said_of(is_so: bool) -> &'static str {
    if is_so { "ok" } else { "not as wanted" }
}
