//! A number and what it counts.
ghost use Rattle.std.specs.Prelude.{◌≡◌, ◌++◌, OnOk};
ghost use Rattle.std.specs.String.{string_bytes};
ghost use Rattle.explored_text.specs.Tables.{counted};

use itoa::Buffer;
use std::alloc::AllocError;

/// Appends a number and a word, which has an s unless the number is 1.
pub(crate) fn push_count(text: &mut String, count: usize, word: &str) -> Result<(), AllocError>
    ensures { OnOk result (string_bytes text.new ≡ string_bytes text.old ++ counted count word.now) }
{
    text.push_str(Buffer::new().format(count))?;
    text.push_str(" ")?;
    text.push_str(word)?;
    if count == 1 {
        return Ok(());
    }
    text.push_str("s")
}
