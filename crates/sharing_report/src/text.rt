//! The text of the report: a line for each row.
ghost use Rattle.std.specs.Prelude.{◌≡◌, ◌++◌, IfOk, OnOk, codes, decimal};
ghost use Rattle.std.specs.String.{string_bytes};
ghost use Rattle.sharing_report.specs.Texts.{row_text, text_of};

use crate::page_row::PageRow;
use itoa::Buffer;
use std::alloc::{AllocError, Global};
use text_output::write_hexadecimal;

/// The text of a report: a line for each row.
pub fn report_text(alloc: Global, rows: &[PageRow]) -> Result<String, AllocError>
    ensures { IfOk result (λ text. string_bytes text ≡ text_of rows.now) }
{
    let mut text = String::new(alloc);
    for row in rows {
        write_row(&mut text, *row)?;
    }
    Ok(text)
}

/// Appends the line of a row, as `page=00020000 turns=2 bytes=2 threads=2 shared=1 clashes=1`.
#[tactic(auto, unfolding(crate::specs::Texts::row_text))]
fn write_row(text: &mut String, row: PageRow) -> Result<(), AllocError>
    ensures { OnOk result (string_bytes text.new ≡ string_bytes text.old ++ row_text row) }
{
    text.push_str("page=")?;
    write_hexadecimal(text, 8, row.page)?;
    write_count(text, " turns=", row.turns)?;
    write_count(text, " bytes=", row.bytes)?;
    write_count(text, " threads=", row.threads)?;
    write_count(text, " shared=", row.shared)?;
    write_count(text, " clashes=", row.clashes)?;
    text.push_str("\n")
}

/// Appends a count after its name.
fn write_count(text: &mut String, name: &str, count: u64) -> Result<(), AllocError>
    ensures { OnOk result (string_bytes text.new ≡ string_bytes text.old ++ name.now ++ decimal count) }
{
    text.push_str(name)?;
    text.push_str(Buffer::new().format(count))
}
