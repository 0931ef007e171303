//! Texts in columns.
ghost use Rattle.std.specs.Prelude.{◌≡◌, ◌++◌, OnOk};
ghost use Rattle.std.specs.String.{string_bytes};
ghost use Rattle.explored_text.specs.Tables.{at_left, at_right, spaces};

use std::alloc::AllocError;

/// Appends a text at the right end of a column that is so many bytes wide.
pub(crate) fn push_right(text: &mut String, width: usize, cell: &str) -> Result<(), AllocError>
    ensures { OnOk result (string_bytes text.new ≡ string_bytes text.old ++ at_right width cell.now) }
{
    push_spaces(text, width.saturating_sub(cell.len()))?;
    text.push_str(cell)
}

/// Appends a text at the left end of a column that is so many bytes wide.
pub(crate) fn push_left(text: &mut String, width: usize, cell: &str) -> Result<(), AllocError>
    ensures { OnOk result (string_bytes text.new ≡ string_bytes text.old ++ at_left width cell.now) }
{
    text.push_str(cell)?;
    push_spaces(text, width.saturating_sub(cell.len()))
}

/// Appends so many spaces.
fn push_spaces(text: &mut String, count: usize) -> Result<(), AllocError>
    ensures { OnOk result (string_bytes text.new ≡ string_bytes text.old ++ spaces count) }
{
    for _ in 0..count {
        text.push(' ')?;
    }
    Ok(())
}
