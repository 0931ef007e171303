//! The name of a call in a trace line, or its number.
ghost use Rattle.std.specs.Prelude.{◌≡◌, ◌++◌, OnOk};
ghost use Rattle.std.specs.String.{string_bytes};
ghost use Rattle.tracer.specs.TraceText.{name_text};

use abi::CallKind;
use std::alloc::AllocError;
use text_output::write_hexadecimal;

/// Appends the name of the call with this number, or `call_` and the number's eight digits where no call
/// has it.
///
/// # Errors
///
/// Only out of memory. The text may then have a part of the name.
#[tactic(auto, unfolding(crate::specs::TraceText::name_text))]
pub fn write_call_name(text: &mut String, number: u32) -> Result<(), AllocError>
    ensures { OnOk result (string_bytes text.new ≡ string_bytes text.old ++ name_text number) }
{
    match CallKind::from_number(number) {
        Some(kind) => text.push_str(kind.name()),
        None => {
            text.push_str("call_")?;
            write_hexadecimal(text, 8, number)
        }
    }
}
