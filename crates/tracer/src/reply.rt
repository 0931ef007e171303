//! The reply of a call in a trace line.
ghost use Rattle.std.specs.Prelude.{◌≡◌, ◌++◌, OnOk};
ghost use Rattle.std.specs.String.{string_bytes};
ghost use Rattle.tracer.specs.TraceText.{result_text};

use abi::Reply;
use itoa::Buffer;
use std::alloc::AllocError;
use text_output::write_hexadecimal;

/// Appends what a call came to: its code and the value that it has, or that it waits or ended.
#[tactic(auto, unfolding(crate::specs::TraceText::result_text))]
pub(crate) fn write_reply(text: &mut String, reply: Reply) -> Result<(), AllocError>
    ensures { OnOk result (string_bytes text.new ≡ string_bytes text.old ++ result_text reply) }
{
    match reply {
        Reply::Completed { code, value } => {
            text.push_str(Buffer::new().format(code.number()))?;
            match value {
                Some(value) => {
                    text.push_str(" ")?;
                    write_hexadecimal(text, 8, value)
                }
                None => Ok(()),
            }
        }
        Reply::Waits => text.push_str("wait"),
        Reply::Ends => text.push_str("end"),
    }
}
