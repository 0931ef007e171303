//! The text of an instruction word, and the law that distinct words at one address have distinct texts.
ghost use Rattle.std.specs.Prelude.{◌≡◌, ℕ, ◌^◌, ◌<◌, IfOk};
ghost use Rattle.std.specs.String.{string_bytes};
ghost use Rattle.disassembler.specs.Appended.{Appends};
ghost use Rattle.disassembler.specs.Texts.{text_from, text_of};

use crate::instruction::write_instruction;
use decoder::decode;
use std::alloc::{AllocError, Global};
use text_output::write_hexadecimal;

/// The text of an instruction word at an address. The target of a branch or a jump is modulo 2^32.
pub fn text(alloc: Global, address: u32, word: u32) -> Result<String, AllocError>
    ensures { IfOk result (λ t. string_bytes t ≡ text_of address word) }
{
    let mut text = String::new(alloc);
    write_text(&mut text, address, word)?;
    Ok(text)
}

/// Appends the text of a word at an address.
#[tactic(auto, unfolding(crate::specs::Texts::text_of))]
pub(crate) fn write_text(text: &mut String, address: u32, word: u32) -> Result<(), AllocError>
    ensures { Appends result text.old (text_of address word) text.new }
{
    match decode(word) {
        Some(instr) => write_instruction(text, address, instr),
        None => {
            text.push_str(".word 0x")?;
            write_hexadecimal(text, 8, word)
        }
    }
}

/// Distinct words at one address have distinct texts.
pub fn distinct_texts()
    ensures { (address a b : ℕ) → a < 2 ^ 32 → b < 2 ^ 32 → text_of address a ≡ text_of address b → a ≡ b }
{}
