//! The operands of an instruction and the text of each.
ghost use Rattle.std.specs.Prelude.{decimal};
ghost use Rattle.disassembler.specs.Appended.{Appends};
ghost use Rattle.disassembler.specs.Operands.{operand_text, register_text, signed_text};

use decoder::{Immediate, UpperImmediate};
use itoa::Buffer;
use std::alloc::AllocError;
use text_output::write_hexadecimal;

/// An operand of an instruction, by the way in which it is written.
#[derive(Clone, Copy)]
pub(crate) enum Operand {
    /// A register, as `x31`.
    Register(decoder::Register),
    /// A number in decimal.
    Unsigned(u8),
    /// A signed number in decimal, as `-8`.
    Signed(Immediate),
    /// The upper 20 bits, as `0x00010`.
    Upper(UpperImmediate),
    /// An address, as `0x00010010`.
    Address(u32),
    /// An offset and the register that it is added to, as `-8(x6)`.
    Indirect(Immediate, decoder::Register),
}

/// Appends an operand.
#[tactic(auto, unfolding(crate::specs::Operands::operand_text))]
pub(crate) fn write_operand(text: &mut String, operand: Operand) -> Result<(), AllocError>
    ensures { Appends result text.old (operand_text operand) text.new }
{
    match operand {
        Operand::Register(register) => write_register(text, register),
        Operand::Unsigned(number) => text.push_str(Buffer::new().format(number)),
        Operand::Signed(immediate) => write_signed(text, immediate),
        Operand::Upper(immediate) => {
            text.push_str("0x")?;
            write_hexadecimal(text, 5, immediate.word() >> 12)
        }
        Operand::Address(address) => {
            text.push_str("0x")?;
            write_hexadecimal(text, 8, address)
        }
        Operand::Indirect(offset, base) => {
            write_signed(text, offset)?;
            text.push_str("(")?;
            write_register(text, base)?;
            text.push_str(")")
        }
    }
}

fn write_register(text: &mut String, register: decoder::Register) -> Result<(), AllocError>
    ensures { Appends result text.old (register_text register) text.new }
{
    text.push_str("x")?;
    text.push_str(Buffer::new().format(register.number()))
}

fn write_signed(text: &mut String, immediate: Immediate) -> Result<(), AllocError>
    ensures { Appends result text.old (signed_text immediate) text.new }
{
    let mut buffer = Buffer::new();
    text.push_str(buffer.format(immediate.word().cast_signed()))
}
