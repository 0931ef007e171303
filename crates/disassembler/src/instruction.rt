//! The text of an instruction: its name and its operands.
ghost use Rattle.std.specs.Prelude.{[], ◌∷◌};
ghost use Rattle.disassembler.specs.Appended.{Appends};
ghost use Rattle.disassembler.specs.Instructions.{instruction_text};

use crate::line::write_line;
use crate::operand::Operand;
use crate::tables::{
    write_branch_text, write_immediate_operation_text, write_load_text, write_multiplication_text,
    write_operation_text, write_store_text, write_upper_or_jump_text,
};
use decoder::Instr;
use std::alloc::AllocError;

/// Appends the text of an instruction at an address, by the table of its group.
#[tactic(auto, unfolding(crate::specs::Instructions::instruction_text))]
pub(crate) fn write_instruction(
    text: &mut String,
    address: u32,
    instr: Instr,
) -> Result<(), AllocError>
    ensures { Appends result text.old (instruction_text address instr) text.new }
{
    match instr {
        Instr::Lui { .. } | Instr::Auipc { .. } | Instr::Jal { .. } | Instr::Jalr { .. } =>
            write_upper_or_jump_text(text, address, instr),
        Instr::Beq { .. }
        | Instr::Bne { .. }
        | Instr::Blt { .. }
        | Instr::Bge { .. }
        | Instr::Bltu { .. }
        | Instr::Bgeu { .. } => write_branch_text(text, address, instr),
        Instr::Lb { .. }
        | Instr::Lh { .. }
        | Instr::Lw { .. }
        | Instr::Lbu { .. }
        | Instr::Lhu { .. } => write_load_text(text, instr),
        Instr::Sb { .. } | Instr::Sh { .. } | Instr::Sw { .. } => write_store_text(text, instr),
        Instr::Addi { .. }
        | Instr::Slti { .. }
        | Instr::Sltiu { .. }
        | Instr::Xori { .. }
        | Instr::Ori { .. }
        | Instr::Andi { .. }
        | Instr::Slli { .. }
        | Instr::Srli { .. }
        | Instr::Srai { .. } => write_immediate_operation_text(text, instr),
        Instr::Add { .. }
        | Instr::Sub { .. }
        | Instr::Sll { .. }
        | Instr::Slt { .. }
        | Instr::Sltu { .. }
        | Instr::Xor { .. }
        | Instr::Srl { .. }
        | Instr::Sra { .. }
        | Instr::Or { .. }
        | Instr::And { .. } => write_operation_text(text, instr),
        Instr::Mul { .. }
        | Instr::Mulh { .. }
        | Instr::Mulhsu { .. }
        | Instr::Mulhu { .. }
        | Instr::Div { .. }
        | Instr::Divu { .. }
        | Instr::Rem { .. }
        | Instr::Remu { .. } => write_multiplication_text(text, instr),
        Instr::Fence {
            fm,
            pred,
            succ,
            rs1,
            rd,
        } => {
            let operands = [
                Operand::Unsigned(fm.number()),
                Operand::Unsigned(pred.number()),
                Operand::Unsigned(succ.number()),
                Operand::Register(rs1),
                Operand::Register(rd),
            ];
            write_line(text, "fence", &operands)
        }
        Instr::Ecall => text.push_str("ecall"),
        Instr::Ebreak => text.push_str("ebreak"),
    }
}
