//! The table of an exploration's rows.
ghost use Rattle.std.specs.Prelude.{◌≡◌, ◌++◌, OnOk, length};
ghost use Rattle.std.specs.String.{string_bytes};
ghost use Rattle.explored_text.specs.Tables as spec;

use crate::columns::{push_left, push_right};
use crate::counts::push_count;
use crate::hashes::push_output;
use crate::widths::{Widths, widths_of};
use explored_runs::Row;
use itoa::Buffer;
use run_digest::OutcomeText;
use std::alloc::{AllocError, Global};

/// Appends the head and the table of so many runs with these rows.
///
/// # Errors
///
/// Only out of memory. The text may then have some of it.
#[tactic(auto, unfolding(crate::specs::Tables::table_text))]
pub fn push_table(
    alloc: Global,
    text: &mut String,
    runs: u32,
    rows: &[Row],
) -> Result<(), AllocError>
    ensures { OnOk result (string_bytes text.new ≡ string_bytes text.old ++ spec.table_text runs rows.now) }
{
    push_count(text, runs as usize, "run")?;
    text.push_str(", ")?;
    push_count(text, rows.len(), "outcome")?;
    text.push_str("\n")?;
    let widths = widths_of(alloc, rows)?;
    push_columns(text, widths, "runs", "first", "outcome")?;
    text.push_str("output\n")?;
    push_rows(alloc, text, widths, rows)
}

/// Appends the lines of rows.
fn push_rows(
    alloc: Global,
    text: &mut String,
    widths: Widths,
    rows: &[Row],
) -> Result<(), AllocError>
    ensures { OnOk result (string_bytes text.new ≡ string_bytes text.old ++ spec.rows_text widths rows.now) }
{
    for row in rows {
        push_row(alloc, text, widths, row)?;
    }
    Ok(())
}

/// Appends the line of a row.
#[tactic(auto, unfolding(crate::specs::Tables::row_text))]
fn push_row(alloc: Global, text: &mut String, widths: Widths, row: &Row) -> Result<(), AllocError>
    ensures { OnOk result (string_bytes text.new ≡ string_bytes text.old ++ spec.row_text widths row.now) }
{
    let outcome = format!(in alloc; "{}", OutcomeText(row.ending.outcome))?;
    push_columns(
        text,
        widths,
        Buffer::new().format(row.runs),
        Buffer::new().format(row.first),
        &outcome,
    )?;
    push_output(text, row)?;
    text.push_str("\n")
}

/// Appends what stands in the first three columns, and the space before the last one.
fn push_columns(
    text: &mut String,
    widths: Widths,
    runs: &str,
    first: &str,
    outcome: &str,
) -> Result<(), AllocError>
    ensures { OnOk result (string_bytes text.new ≡ string_bytes text.old ++ spec.columns widths runs.now first.now outcome.now) }
{
    push_right(text, widths.runs, runs)?;
    text.push_str("  ")?;
    push_right(text, widths.first, first)?;
    text.push_str("  ")?;
    push_left(text, widths.outcome, outcome)?;
    text.push_str("  ")
}
