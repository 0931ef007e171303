//! The lines of instructions, by their operands.

ghost use Rattle.std.specs.Prelude.{[], ◌∷◌};
ghost use Rattle.disassembler.specs.Appended.{Appends};
ghost use Rattle.disassembler.specs.Operands.{operands_after, line_of};
ghost use Rattle.disassembler.specs.Instructions.{target};

use crate::operand::{Operand, write_operand};
use decoder::{BranchOffset, Immediate, Register, ShiftAmount, UpperImmediate};
use std::alloc::AllocError;

/// A register and the upper 20 bits.
pub(crate) fn write_upper(
    text: &mut String,
    name: &str,
    rd: Register,
    immediate: UpperImmediate,
) -> Result<(), AllocError>
    ensures { Appends result text.old (line_of name.now (Operand.Register rd ∷ Operand.Upper immediate ∷ [])) text.new }
{
    write_line(
        text,
        name,
        &[Operand::Register(rd), Operand::Upper(immediate)],
    )
}

/// A register, and an offset with the register that it is added to: loads, stores and JALR.
pub(crate) fn write_indirect(
    text: &mut String,
    name: &str,
    register: Register,
    offset: Immediate,
    base: Register,
) -> Result<(), AllocError>
    ensures { Appends result text.old (line_of name.now (Operand.Register register ∷ Operand.Indirect offset base ∷ [])) text.new }
{
    write_line(
        text,
        name,
        &[Operand::Register(register), Operand::Indirect(offset, base)],
    )
}

/// Two registers and the target of a branch.
pub(crate) fn write_branch(
    text: &mut String,
    name: &str,
    address: u32,
    rs1: Register,
    rs2: Register,
    offset: BranchOffset,
) -> Result<(), AllocError>
    ensures { Appends result text.old
        (line_of name.now (Operand.Register rs1 ∷ Operand.Register rs2 ∷ target address offset ∷ [])) text.new }
{
    let target = address.wrapping_add(offset.word());
    write_line(
        text,
        name,
        &[
            Operand::Register(rs1),
            Operand::Register(rs2),
            Operand::Address(target),
        ],
    )
}

/// Two registers and a signed immediate.
pub(crate) fn write_immediate(
    text: &mut String,
    name: &str,
    rd: Register,
    rs1: Register,
    immediate: Immediate,
) -> Result<(), AllocError>
    ensures { Appends result text.old
        (line_of name.now (Operand.Register rd ∷ Operand.Register rs1 ∷ Operand.Signed immediate ∷ [])) text.new }
{
    write_line(
        text,
        name,
        &[
            Operand::Register(rd),
            Operand::Register(rs1),
            Operand::Signed(immediate),
        ],
    )
}

/// Two registers and the amount of a shift.
pub(crate) fn write_shift(
    text: &mut String,
    name: &str,
    rd: Register,
    rs1: Register,
    amount: ShiftAmount,
) -> Result<(), AllocError>
    ensures { Appends result text.old
        (line_of name.now (Operand.Register rd ∷ Operand.Register rs1 ∷ Operand.Unsigned amount ∷ [])) text.new }
{
    write_line(
        text,
        name,
        &[
            Operand::Register(rd),
            Operand::Register(rs1),
            Operand::Unsigned(amount.number()),
        ],
    )
}

/// Three registers.
pub(crate) fn write_registers(
    text: &mut String,
    name: &str,
    rd: Register,
    rs1: Register,
    rs2: Register,
) -> Result<(), AllocError>
    ensures { Appends result text.old (line_of name.now (Operand.Register rd ∷ Operand.Register rs1 ∷ Operand.Register rs2 ∷ [])) text.new }
{
    write_line(
        text,
        name,
        &[
            Operand::Register(rd),
            Operand::Register(rs1),
            Operand::Register(rs2),
        ],
    )
}

/// A name and its operands.
pub(crate) fn write_line(
    text: &mut String,
    name: &str,
    operands: &[Operand],
) -> Result<(), AllocError>
    ensures { Appends result text.old (line_of name.now operands.now) text.new }
{
    text.push_str(name)?;
    let mut before = ' ';
    for operand in operands {
        text.push(before)?;
        write_operand(text, *operand)?;
        before = ',';
    }
    Ok(())
}
