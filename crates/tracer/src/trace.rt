//! The trace of a list of turns.
ghost use Rattle.std.specs.Prelude.{◌≡◌, IfOk};
ghost use Rattle.std.specs.String.{string_bytes};
ghost use Rattle.tracer.specs.TraceText.{text_of};

use crate::turn_line::write_line;
use std::alloc::{AllocError, Global};
use token::Turn;

/// The text of a trace: the lines of its turns, in their order.
///
/// # Errors
///
/// Only out of memory.
pub fn trace_text(alloc: Global, turns: &[Turn]) -> Result<String, AllocError>
    ensures { IfOk result (λ t. string_bytes t ≡ text_of turns.now) }
{
    let mut text = String::new(alloc);
    for turn in turns {
        write_line(&mut text, turn)?;
    }
    Ok(text)
}
