//! The function that an instruction is in, at the end of a line.
ghost use Rattle.std.specs.Prelude.{◌≡◌, ◌++◌, OnOk, codes, decimal, option_map};
ghost use Rattle.std.specs.String.{string_bytes};
ghost use Rattle.symbols.specs.Covering.{told};
ghost use Rattle.explanations.specs.Places.{end_text, name_text, place_text};

use std::alloc::AllocError;
use symbols::{SymbolOffset, Symbols};

/// Ends a line with the function that covers an address, as `, in work+20`, if there is one.
#[tactic(auto, unfolding(crate::specs::Places::end_text))]
pub(crate) fn write_end(text: &mut String, symbols: &Symbols, pc: u32) -> Result<(), AllocError>
    ensures { OnOk result (string_bytes text.new ≡ string_bytes text.old ++ end_text symbols.now pc) }
{
    write_place(text, symbols.function_at(pc))?;
    text.push_str("\n")
}

/// Appends a place, if there is one.
#[tactic(auto, unfolding(crate::specs::Places::place_text))]
fn write_place(text: &mut String, place: Option<SymbolOffset<'_>>) -> Result<(), AllocError>
    ensures { OnOk result (string_bytes text.new ≡ string_bytes text.old ++ place_text (option_map told place.entry)) }
{
    match place {
        Some(place) => {
            text.push_str(", in ")?;
            write_name(text, place.name)?;
            write_offset(text, place.offset)
        }
        None => Ok(()),
    }
}

/// Appends an offset behind a name.
fn write_offset(text: &mut String, offset: u32) -> Result<(), AllocError>
    ensures { OnOk result (string_bytes text.new ≡ string_bytes text.old ++ codes "+" ++ decimal offset) }
{
    write!(text, "+{offset}")
}

/// Appends a symbol's name. A byte that is no ASCII becomes a question mark.
#[tactic(auto, unfolding(crate::specs::Places::name_text))]
fn write_name(text: &mut String, name: &[u8]) -> Result<(), AllocError>
    ensures { OnOk result (string_bytes text.new ≡ string_bytes text.old ++ name_text name.now) }
{
    for byte in name {
        if *byte < 128 {
            text.push(*byte as char)?;
        } else {
            text.push('?')?;
        }
    }
    Ok(())
}
