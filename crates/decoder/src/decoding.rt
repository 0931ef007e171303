//! From a word to its instruction: a choice by opcode, funct3 and funct7.
#![tactic(auto, unfolding(crate::specs::Decoding::decoded, crate::specs::Encoding::Encodes))]

ghost use Rattle.std.specs.Prelude.{◌≡◌, ℕ, IfSome};
ghost use Rattle.decoder.specs.Word.{bits};
ghost use Rattle.decoder.specs.Forms.{i_immediate, s_immediate, b_immediate, HasCodes};
ghost use Rattle.decoder.specs.Encoding.{Encodes, Decodes};
ghost use Rattle.decoder.specs.Decoding.{decoded, decoded_at, with_rd, with_rs2, jumps, branches, loads, stores, immediate_operations, shifts, base_operations, alternate_operations, multiplications, operations, decoded_immediate_operation, decoded_fence, decoded_system};
ghost use Rattle.decoder.specs.declared.instr.Instr.{Instr};

use crate::instr::Instr;
use crate::opcode;
use crate::parts::{
    amount_of, b_immediate_of, fm_of, funct3_of, funct7_of, i_immediate_of, j_immediate_of,
    opcode_of, pred_of, rd_of, rs1_of, rs2_of, s_immediate_of, succ_of, u_immediate_of,
};

/// The instruction that a word encodes. `None` says that the word is illegal: no instruction has it.
#[inline(always)]
pub fn decode(word: u32) -> Option<Instr>
    ensures sound { IfSome result (Encodes word) }
    ensures complete { (i : Instr) → Encodes word i → result ≡ Some i }
    ensures computed { result ≡ decoded word }
{
    decode_at(opcode_of(word), word)
}

/// The instruction of a word with this opcode.
#[inline(always)]
fn decode_at(opcode: u32, word: u32) -> Option<Instr>
    requires { bits word 0 7 ≡ opcode }
    ensures { Decodes word (decoded_at opcode word) result }
{
    match opcode {
        opcode::LUI => Some(Instr::Lui {
            rd: rd_of(word),
            immediate: u_immediate_of(word),
        }),
        opcode::AUIPC => Some(Instr::Auipc {
            rd: rd_of(word),
            immediate: u_immediate_of(word),
        }),
        opcode::JAL => Some(Instr::Jal {
            rd: rd_of(word),
            offset: j_immediate_of(word),
        }),
        opcode::JALR => decode_jalr(word),
        opcode::BRANCH => decode_branch(word),
        opcode::LOAD => decode_load(word),
        opcode::STORE => decode_store(word),
        opcode::OP_IMM => decode_immediate_operation(word),
        opcode::OP => decode_operation(word),
        opcode::MISC_MEM => decode_fence(word),
        opcode::SYSTEM => decode_system(word),
        _ => None,
    }
}

/// JALR.
#[inline(always)]
fn decode_jalr(word: u32) -> Option<Instr>
    requires { bits word 0 7 ≡ 0b1100111 }
    ensures { Decodes word (with_rd jumps word (i_immediate word)) result }
{
    let (rd, rs1, offset) = (rd_of(word), rs1_of(word), i_immediate_of(word));
    match funct3_of(word) {
        0b000 => Some(Instr::Jalr { rd, rs1, offset }),
        _ => None,
    }
}

/// The branches.
#[inline(always)]
fn decode_branch(word: u32) -> Option<Instr>
    requires { bits word 0 7 ≡ 0b1100011 }
    ensures { Decodes word (with_rs2 branches word (b_immediate word)) result }
{
    let (rs1, rs2, offset) = (rs1_of(word), rs2_of(word), b_immediate_of(word));
    match funct3_of(word) {
        0b000 => Some(Instr::Beq { rs1, rs2, offset }),
        0b001 => Some(Instr::Bne { rs1, rs2, offset }),
        0b100 => Some(Instr::Blt { rs1, rs2, offset }),
        0b101 => Some(Instr::Bge { rs1, rs2, offset }),
        0b110 => Some(Instr::Bltu { rs1, rs2, offset }),
        0b111 => Some(Instr::Bgeu { rs1, rs2, offset }),
        _ => None,
    }
}

/// The loads.
#[inline(always)]
fn decode_load(word: u32) -> Option<Instr>
    requires { bits word 0 7 ≡ 0b0000011 }
    ensures { Decodes word (with_rd loads word (i_immediate word)) result }
{
    let (rd, rs1, offset) = (rd_of(word), rs1_of(word), i_immediate_of(word));
    match funct3_of(word) {
        0b000 => Some(Instr::Lb { rd, rs1, offset }),
        0b001 => Some(Instr::Lh { rd, rs1, offset }),
        0b010 => Some(Instr::Lw { rd, rs1, offset }),
        0b100 => Some(Instr::Lbu { rd, rs1, offset }),
        0b101 => Some(Instr::Lhu { rd, rs1, offset }),
        _ => None,
    }
}

/// The stores.
#[inline(always)]
fn decode_store(word: u32) -> Option<Instr>
    requires { bits word 0 7 ≡ 0b0100011 }
    ensures { Decodes word (with_rs2 stores word (s_immediate word)) result }
{
    let (rs1, rs2, offset) = (rs1_of(word), rs2_of(word), s_immediate_of(word));
    match funct3_of(word) {
        0b000 => Some(Instr::Sb { rs1, rs2, offset }),
        0b001 => Some(Instr::Sh { rs1, rs2, offset }),
        0b010 => Some(Instr::Sw { rs1, rs2, offset }),
        _ => None,
    }
}

/// The operations on a register and an immediate; the shifts among them have a funct7 too.
#[inline(always)]
fn decode_immediate_operation(word: u32) -> Option<Instr>
    requires { bits word 0 7 ≡ 0b0010011 }
    ensures { Decodes word (decoded_immediate_operation word) result }
{
    let (rd, rs1, immediate) = (rd_of(word), rs1_of(word), i_immediate_of(word));
    match funct3_of(word) {
        0b000 => Some(Instr::Addi { rd, rs1, immediate }),
        0b010 => Some(Instr::Slti { rd, rs1, immediate }),
        0b011 => Some(Instr::Sltiu { rd, rs1, immediate }),
        0b100 => Some(Instr::Xori { rd, rs1, immediate }),
        0b110 => Some(Instr::Ori { rd, rs1, immediate }),
        0b111 => Some(Instr::Andi { rd, rs1, immediate }),
        _ => decode_shift(word),
    }
}

/// The shifts by an immediate.
#[inline(always)]
fn decode_shift(word: u32) -> Option<Instr>
    requires { bits word 0 7 ≡ 0b0010011 }
    ensures { Decodes word (with_rd (shifts (bits word 25 7)) word (bits word 20 5)) result }
{
    let (rd, rs1, amount) = (rd_of(word), rs1_of(word), amount_of(word));
    match (funct7_of(word), funct3_of(word)) {
        (0b000_0000, 0b001) => Some(Instr::Slli { rd, rs1, amount }),
        (0b000_0000, 0b101) => Some(Instr::Srli { rd, rs1, amount }),
        (0b010_0000, 0b101) => Some(Instr::Srai { rd, rs1, amount }),
        _ => None,
    }
}

/// The operations on registers.
#[inline(always)]
fn decode_operation(word: u32) -> Option<Instr>
    requires { bits word 0 7 ≡ 0b0110011 }
    ensures { Decodes word (with_rd (operations (bits word 25 7)) word (bits word 20 5)) result }
{
    match funct7_of(word) {
        0b000_0000 => decode_base_operation(word),
        0b010_0000 => decode_alternate_operation(word),
        0b000_0001 => decode_multiplication(word),
        _ => None,
    }
}

/// The operations on registers where funct7 is 0000000.
#[inline(always)]
fn decode_base_operation(word: u32) -> Option<Instr>
    requires { HasCodes word 0b0000000 0b0110011 }
    ensures { Decodes word (with_rd base_operations word (bits word 20 5)) result }
{
    let (rd, rs1, rs2) = (rd_of(word), rs1_of(word), rs2_of(word));
    match funct3_of(word) {
        0b000 => Some(Instr::Add { rd, rs1, rs2 }),
        0b001 => Some(Instr::Sll { rd, rs1, rs2 }),
        0b010 => Some(Instr::Slt { rd, rs1, rs2 }),
        0b011 => Some(Instr::Sltu { rd, rs1, rs2 }),
        0b100 => Some(Instr::Xor { rd, rs1, rs2 }),
        0b101 => Some(Instr::Srl { rd, rs1, rs2 }),
        0b110 => Some(Instr::Or { rd, rs1, rs2 }),
        0b111 => Some(Instr::And { rd, rs1, rs2 }),
        _ => None,
    }
}

/// The operations on registers where funct7 is 0100000.
#[inline(always)]
fn decode_alternate_operation(word: u32) -> Option<Instr>
    requires { HasCodes word 0b0100000 0b0110011 }
    ensures { Decodes word (with_rd alternate_operations word (bits word 20 5)) result }
{
    let (rd, rs1, rs2) = (rd_of(word), rs1_of(word), rs2_of(word));
    match funct3_of(word) {
        0b000 => Some(Instr::Sub { rd, rs1, rs2 }),
        0b101 => Some(Instr::Sra { rd, rs1, rs2 }),
        _ => None,
    }
}

/// The operations on registers where funct7 is 0000001: the extension M.
#[inline(always)]
fn decode_multiplication(word: u32) -> Option<Instr>
    requires { HasCodes word 0b0000001 0b0110011 }
    ensures { Decodes word (with_rd multiplications word (bits word 20 5)) result }
{
    let (rd, rs1, rs2) = (rd_of(word), rs1_of(word), rs2_of(word));
    match funct3_of(word) {
        0b000 => Some(Instr::Mul { rd, rs1, rs2 }),
        0b001 => Some(Instr::Mulh { rd, rs1, rs2 }),
        0b010 => Some(Instr::Mulhsu { rd, rs1, rs2 }),
        0b011 => Some(Instr::Mulhu { rd, rs1, rs2 }),
        0b100 => Some(Instr::Div { rd, rs1, rs2 }),
        0b101 => Some(Instr::Divu { rd, rs1, rs2 }),
        0b110 => Some(Instr::Rem { rd, rs1, rs2 }),
        0b111 => Some(Instr::Remu { rd, rs1, rs2 }),
        _ => None,
    }
}

/// FENCE, whose fields may hold any value.
#[inline(always)]
fn decode_fence(word: u32) -> Option<Instr>
    requires { bits word 0 7 ≡ 0b0001111 }
    ensures { Decodes word (decoded_fence word) result }
{
    let (fm, pred, succ) = (fm_of(word), pred_of(word), succ_of(word));
    let (rs1, rd) = (rs1_of(word), rd_of(word));
    match funct3_of(word) {
        0b000 => Some(Instr::Fence {
            fm,
            pred,
            succ,
            rs1,
            rd,
        }),
        _ => None,
    }
}

/// ECALL and EBREAK, each a single word.
#[inline(always)]
fn decode_system(word: u32) -> Option<Instr>
    ensures { Decodes word (decoded_system word) result }
{
    match word {
        0x0000_0073 => Some(Instr::Ecall),
        0x0010_0073 => Some(Instr::Ebreak),
        _ => None,
    }
}
