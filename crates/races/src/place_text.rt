//! The text of a place: the symbol that covers it, else its address.
ghost use Rattle.std.specs.Prelude.{◌≡◌, ◌++◌, OnOk, codes, decimal, option_map};
ghost use Rattle.std.specs.String.{string_bytes};
ghost use Rattle.symbols.specs.Covering.{told};
ghost use Rattle.races.specs.LockTexts.{place_or_text};
ghost use Rattle.races.specs.Texts.{name_text};

use itoa::Buffer;
use std::alloc::AllocError;
use symbols::SymbolOffset;
use text_output::write_hexadecimal;

/// Appends a place after the name of its field, or its address after that of another field if no symbol covers it.
#[tactic(auto, unfolding(crate::specs::LockTexts::place_or_text))]
pub(crate) fn write_place_or(
    text: &mut String,
    field: &str,
    place: Option<SymbolOffset<'_>>,
    bare: &str,
    address: u32,
) -> Result<(), AllocError>
    ensures { OnOk result
        (string_bytes text.new ≡ string_bytes text.old ++ place_or_text field.now (option_map told place.entry) bare.now address) }
{
    match place {
        Some(place) => {
            text.push_str(field)?;
            write_symbol(text, place.name)?;
            write_number(text, "+", u64::from(place.offset))
        }
        None => {
            text.push_str(bare)?;
            write_hexadecimal(text, 8, address)
        }
    }
}

/// Appends a symbol's name. A byte that is no ASCII becomes a question mark.
#[tactic(auto, unfolding(crate::specs::Texts::name_text))]
pub(crate) fn write_symbol(text: &mut String, name: &[u8]) -> Result<(), AllocError>
    ensures { OnOk result (string_bytes text.new ≡ string_bytes text.old ++ name_text name.now) }
{
    for byte in name {
        let shown = if *byte < 128 { *byte as char } else { '?' };
        text.push(shown)?;
    }
    Ok(())
}

/// Appends a number after the name of its field.
pub(crate) fn write_number(text: &mut String, name: &str, number: u64) -> Result<(), AllocError>
    ensures { OnOk result (string_bytes text.new ≡ string_bytes text.old ++ name.now ++ decimal number) }
{
    text.push_str(name)?;
    text.push_str(Buffer::new().format(number))
}
