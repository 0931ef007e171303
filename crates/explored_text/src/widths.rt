//! How wide the columns of a table are.
ghost use Rattle.std.specs.Prelude.{◌≡◌, ◌<◌, ◌^◌, IfOk};
ghost use Rattle.explored_text.specs.Tables as spec;

use explored_runs::Row;
use itoa::Buffer;
use run_digest::OutcomeText;
use std::alloc::{AllocError, Global};

/// How wide the columns of a table are, in bytes.
#[derive(Clone, Copy)]
pub(crate) struct Widths {
    /// The column of how many runs there are.
    pub runs: usize,
    /// The column of the first number.
    pub first: usize,
    /// The column of the outcome.
    pub outcome: usize,
}

/// How wide the columns of a table with these rows are.
pub(crate) fn widths_of(alloc: Global, rows: &[Row]) -> Result<Widths, AllocError>
    ensures { IfOk result (λ widths. widths ≡ spec.widths_of rows.now) }
{
    let mut widths = Widths {
        runs: 7,
        first: 5,
        outcome: 7,
    };
    for row in rows {
        widths = widened(alloc, widths, row)?;
    }
    Ok(widths)
}

/// The widths of columns that have these and a row's texts in them.
fn widened(alloc: Global, widths: Widths, row: &Row) -> Result<Widths, AllocError>
    ensures { IfOk result (λ wider. wider ≡ spec.widened widths row.now) }
{
    let outcome = format!(in alloc; "{}", OutcomeText(row.ending.outcome))?;
    Ok(Widths {
        runs: widths.runs.max(Buffer::new().format(row.runs).len()),
        first: widths.first.max(Buffer::new().format(row.first).len()),
        outcome: widths.outcome.max(outcome.len()),
    })
}
