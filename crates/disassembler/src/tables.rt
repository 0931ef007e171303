//! The text of each instruction, a table for each group of instructions.
#![tactic(auto, unfolding(crate::specs::Instructions::instruction_text))]

ghost use Rattle.std.specs.Prelude.{ℕ};
ghost use Rattle.decoder.specs.Groups.{IsUpperOrJump, IsBranch, IsLoad, IsStore, IsImmediateOperation, IsOperation, IsMultiplication};
ghost use Rattle.disassembler.specs.Appended.{Appends};
ghost use Rattle.disassembler.specs.Instructions.{instruction_text};

use crate::line::{
    write_branch, write_immediate, write_indirect, write_line, write_registers, write_shift,
    write_upper,
};
use crate::operand::Operand;
use decoder::Instr;
use std::alloc::AllocError;

/// Appends the text of an upper immediate or a jump.
pub(crate) fn write_upper_or_jump_text(
    text: &mut String,
    address: u32,
    instr: Instr,
) -> Result<(), AllocError>
    requires { IsUpperOrJump instr }
    ensures { Appends result text.old (instruction_text address instr) text.new }
{
    match instr {
        Instr::Lui { rd, immediate } => write_upper(text, "lui", rd, immediate),
        Instr::Auipc { rd, immediate } => write_upper(text, "auipc", rd, immediate),
        Instr::Jal { rd, offset } => {
            let target = address.wrapping_add(offset.word());
            write_line(
                text,
                "jal",
                &[Operand::Register(rd), Operand::Address(target)],
            )
        }
        Instr::Jalr { rd, rs1, offset } => write_indirect(text, "jalr", rd, offset, rs1),
        _ => unreachable!(),
    }
}

/// Appends the text of a branch.
pub(crate) fn write_branch_text(
    text: &mut String,
    address: u32,
    instr: Instr,
) -> Result<(), AllocError>
    requires { IsBranch instr }
    ensures { Appends result text.old (instruction_text address instr) text.new }
{
    match instr {
        Instr::Beq { rs1, rs2, offset } => write_branch(text, "beq", address, rs1, rs2, offset),
        Instr::Bne { rs1, rs2, offset } => write_branch(text, "bne", address, rs1, rs2, offset),
        Instr::Blt { rs1, rs2, offset } => write_branch(text, "blt", address, rs1, rs2, offset),
        Instr::Bge { rs1, rs2, offset } => write_branch(text, "bge", address, rs1, rs2, offset),
        Instr::Bltu { rs1, rs2, offset } => write_branch(text, "bltu", address, rs1, rs2, offset),
        Instr::Bgeu { rs1, rs2, offset } => write_branch(text, "bgeu", address, rs1, rs2, offset),
        _ => unreachable!(),
    }
}

/// Appends the text of a load.
pub(crate) fn write_load_text(text: &mut String, instr: Instr) -> Result<(), AllocError>
    requires { IsLoad instr }
    ensures { (address : ℕ) → Appends result text.old (instruction_text address instr) text.new }
{
    match instr {
        Instr::Lb { rd, rs1, offset } => write_indirect(text, "lb", rd, offset, rs1),
        Instr::Lh { rd, rs1, offset } => write_indirect(text, "lh", rd, offset, rs1),
        Instr::Lw { rd, rs1, offset } => write_indirect(text, "lw", rd, offset, rs1),
        Instr::Lbu { rd, rs1, offset } => write_indirect(text, "lbu", rd, offset, rs1),
        Instr::Lhu { rd, rs1, offset } => write_indirect(text, "lhu", rd, offset, rs1),
        _ => unreachable!(),
    }
}

/// Appends the text of a store.
pub(crate) fn write_store_text(text: &mut String, instr: Instr) -> Result<(), AllocError>
    requires { IsStore instr }
    ensures { (address : ℕ) → Appends result text.old (instruction_text address instr) text.new }
{
    match instr {
        Instr::Sb { rs1, rs2, offset } => write_indirect(text, "sb", rs2, offset, rs1),
        Instr::Sh { rs1, rs2, offset } => write_indirect(text, "sh", rs2, offset, rs1),
        Instr::Sw { rs1, rs2, offset } => write_indirect(text, "sw", rs2, offset, rs1),
        _ => unreachable!(),
    }
}

/// Appends the text of an operation on a register and an immediate.
pub(crate) fn write_immediate_operation_text(
    text: &mut String,
    instr: Instr,
) -> Result<(), AllocError>
    requires { IsImmediateOperation instr }
    ensures { (address : ℕ) → Appends result text.old (instruction_text address instr) text.new }
{
    match instr {
        Instr::Addi { rd, rs1, immediate } => write_immediate(text, "addi", rd, rs1, immediate),
        Instr::Slti { rd, rs1, immediate } => write_immediate(text, "slti", rd, rs1, immediate),
        Instr::Sltiu { rd, rs1, immediate } => write_immediate(text, "sltiu", rd, rs1, immediate),
        Instr::Xori { rd, rs1, immediate } => write_immediate(text, "xori", rd, rs1, immediate),
        Instr::Ori { rd, rs1, immediate } => write_immediate(text, "ori", rd, rs1, immediate),
        Instr::Andi { rd, rs1, immediate } => write_immediate(text, "andi", rd, rs1, immediate),
        Instr::Slli { rd, rs1, amount } => write_shift(text, "slli", rd, rs1, amount),
        Instr::Srli { rd, rs1, amount } => write_shift(text, "srli", rd, rs1, amount),
        Instr::Srai { rd, rs1, amount } => write_shift(text, "srai", rd, rs1, amount),
        _ => unreachable!(),
    }
}

/// Appends the text of an operation on two registers.
pub(crate) fn write_operation_text(text: &mut String, instr: Instr) -> Result<(), AllocError>
    requires { IsOperation instr }
    ensures { (address : ℕ) → Appends result text.old (instruction_text address instr) text.new }
{
    match instr {
        Instr::Add { rd, rs1, rs2 } => write_registers(text, "add", rd, rs1, rs2),
        Instr::Sub { rd, rs1, rs2 } => write_registers(text, "sub", rd, rs1, rs2),
        Instr::Sll { rd, rs1, rs2 } => write_registers(text, "sll", rd, rs1, rs2),
        Instr::Slt { rd, rs1, rs2 } => write_registers(text, "slt", rd, rs1, rs2),
        Instr::Sltu { rd, rs1, rs2 } => write_registers(text, "sltu", rd, rs1, rs2),
        Instr::Xor { rd, rs1, rs2 } => write_registers(text, "xor", rd, rs1, rs2),
        Instr::Srl { rd, rs1, rs2 } => write_registers(text, "srl", rd, rs1, rs2),
        Instr::Sra { rd, rs1, rs2 } => write_registers(text, "sra", rd, rs1, rs2),
        Instr::Or { rd, rs1, rs2 } => write_registers(text, "or", rd, rs1, rs2),
        Instr::And { rd, rs1, rs2 } => write_registers(text, "and", rd, rs1, rs2),
        _ => unreachable!(),
    }
}

/// Appends the text of a multiplication or a division.
pub(crate) fn write_multiplication_text(text: &mut String, instr: Instr) -> Result<(), AllocError>
    requires { IsMultiplication instr }
    ensures { (address : ℕ) → Appends result text.old (instruction_text address instr) text.new }
{
    match instr {
        Instr::Mul { rd, rs1, rs2 } => write_registers(text, "mul", rd, rs1, rs2),
        Instr::Mulh { rd, rs1, rs2 } => write_registers(text, "mulh", rd, rs1, rs2),
        Instr::Mulhsu { rd, rs1, rs2 } => write_registers(text, "mulhsu", rd, rs1, rs2),
        Instr::Mulhu { rd, rs1, rs2 } => write_registers(text, "mulhu", rd, rs1, rs2),
        Instr::Div { rd, rs1, rs2 } => write_registers(text, "div", rd, rs1, rs2),
        Instr::Divu { rd, rs1, rs2 } => write_registers(text, "divu", rd, rs1, rs2),
        Instr::Rem { rd, rs1, rs2 } => write_registers(text, "rem", rd, rs1, rs2),
        Instr::Remu { rd, rs1, rs2 } => write_registers(text, "remu", rd, rs1, rs2),
        _ => unreachable!(),
    }
}
