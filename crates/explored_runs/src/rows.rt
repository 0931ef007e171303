//! Counts runs in rows.
ghost use Rattle.std.specs.Prelude.{◌≡◌, ◌≢◌, ℕ, ◌-◌, ◌^◌, ◌<◌, ◌≤◌, All, IfOk, OnOk, length, slice_index_or};
ghost use Rattle.explored_runs.specs.Rows.{Counts};

use crate::ending::Ending;
use crate::row::Row;
use std::alloc::AllocError;

/// Counts the run of a number, which ended so and whose output has this last line: in the row of those that ended alike, or in a new row.
pub(crate) fn count(
    rows: &mut Vec<Row>,
    number: u32,
    ending: Ending,
    line: Vec<u8>,
) -> Result<(), AllocError>
    requires { All (λ row. row.runs < 2 ^ 32 - 1) rows.old.items }
    ensures { OnOk result (Counts number ending line.items rows.old.items rows.new.items) }
{
    let place = place_of(rows, &ending);
    if place < rows.len() {
        let row = &mut rows[place];
        row.runs += 1;
        return Ok(());
    }
    rows.push(Row {
        ending,
        line,
        runs: 1,
        first: number,
    })?;
    Ok(())
}

/// The place of the first row with this ending, or the number of rows if there is none.
fn place_of(rows: &[Row], ending: &Ending) -> usize
    ensures within { result ≤ length rows.now }
    ensures before { (k : ℕ) (d : _) → k < result → (slice_index_or rows.now k d).ending ≢ ending.now }
    ensures found { (d : _) → result < length rows.now → (slice_index_or rows.now result d).ending ≡ ending.now }
{
    for (i, row) in rows.iter().enumerate() {
        if row.ending == *ending {
            return i;
        }
    }
    rows.len()
}
