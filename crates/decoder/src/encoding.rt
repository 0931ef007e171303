//! From an instruction to its word.

ghost use Rattle.std.specs.Prelude.{◌≡◌, ℕ, ◌^◌, ◌<◌};
ghost use Rattle.decoder.specs.Forms.{RForm, IForm, SForm, BForm, UForm, JForm, FenceForm, AreFunctionCodes, IsOnlyWord};
ghost use Rattle.decoder.specs.Encoding.{Encodes};
ghost use Rattle.decoder.specs.Encoded.{encoded, r_word, i_word, s_word, b_word, u_word, j_word, fence_word};

use crate::field::{FenceField, ShiftAmount};
use crate::instr::Instr;
use crate::opcode;
use crate::register::Register;
use crate::signed_word::{BranchOffset, Immediate, JumpOffset, UpperImmediate};

/// The word that encodes an instruction.
#[tactic(auto, unfolding(crate::specs::Encoding::Encodes, crate::specs::Encoded::encoded))]
pub fn encode(instr: &Instr) -> u32
    ensures value { Encodes result instr.now }
    ensures only { (w : ℕ) → w < 2 ^ 32 → Encodes w instr.now → w ≡ result }
    ensures computed { result ≡ encoded instr.now }
{
    match *instr {
        Instr::Lui { rd, immediate } => u_form(immediate, rd, opcode::LUI),
        Instr::Auipc { rd, immediate } => u_form(immediate, rd, opcode::AUIPC),
        Instr::Jal { rd, offset } => j_form(offset, rd),
        Instr::Jalr { rd, rs1, offset } => i_form(offset, rs1, 0b000, rd, opcode::JALR),
        Instr::Beq { rs1, rs2, offset } => b_form(offset, rs2, rs1, 0b000),
        Instr::Bne { rs1, rs2, offset } => b_form(offset, rs2, rs1, 0b001),
        Instr::Blt { rs1, rs2, offset } => b_form(offset, rs2, rs1, 0b100),
        Instr::Bge { rs1, rs2, offset } => b_form(offset, rs2, rs1, 0b101),
        Instr::Bltu { rs1, rs2, offset } => b_form(offset, rs2, rs1, 0b110),
        Instr::Bgeu { rs1, rs2, offset } => b_form(offset, rs2, rs1, 0b111),
        Instr::Lb { rd, rs1, offset } => i_form(offset, rs1, 0b000, rd, opcode::LOAD),
        Instr::Lh { rd, rs1, offset } => i_form(offset, rs1, 0b001, rd, opcode::LOAD),
        Instr::Lw { rd, rs1, offset } => i_form(offset, rs1, 0b010, rd, opcode::LOAD),
        Instr::Lbu { rd, rs1, offset } => i_form(offset, rs1, 0b100, rd, opcode::LOAD),
        Instr::Lhu { rd, rs1, offset } => i_form(offset, rs1, 0b101, rd, opcode::LOAD),
        Instr::Sb { rs1, rs2, offset } => s_form(offset, rs2, rs1, 0b000),
        Instr::Sh { rs1, rs2, offset } => s_form(offset, rs2, rs1, 0b001),
        Instr::Sw { rs1, rs2, offset } => s_form(offset, rs2, rs1, 0b010),
        Instr::Addi { rd, rs1, immediate } => i_form(immediate, rs1, 0b000, rd, opcode::OP_IMM),
        Instr::Slti { rd, rs1, immediate } => i_form(immediate, rs1, 0b010, rd, opcode::OP_IMM),
        Instr::Sltiu { rd, rs1, immediate } => i_form(immediate, rs1, 0b011, rd, opcode::OP_IMM),
        Instr::Xori { rd, rs1, immediate } => i_form(immediate, rs1, 0b100, rd, opcode::OP_IMM),
        Instr::Ori { rd, rs1, immediate } => i_form(immediate, rs1, 0b110, rd, opcode::OP_IMM),
        Instr::Andi { rd, rs1, immediate } => i_form(immediate, rs1, 0b111, rd, opcode::OP_IMM),
        Instr::Slli { rd, rs1, amount } => shift_form(0b000_0000, amount, rs1, 0b001, rd),
        Instr::Srli { rd, rs1, amount } => shift_form(0b000_0000, amount, rs1, 0b101, rd),
        Instr::Srai { rd, rs1, amount } => shift_form(0b010_0000, amount, rs1, 0b101, rd),
        Instr::Add { rd, rs1, rs2 } => r_form(0b000_0000, rs2, rs1, 0b000, rd),
        Instr::Sub { rd, rs1, rs2 } => r_form(0b010_0000, rs2, rs1, 0b000, rd),
        Instr::Sll { rd, rs1, rs2 } => r_form(0b000_0000, rs2, rs1, 0b001, rd),
        Instr::Slt { rd, rs1, rs2 } => r_form(0b000_0000, rs2, rs1, 0b010, rd),
        Instr::Sltu { rd, rs1, rs2 } => r_form(0b000_0000, rs2, rs1, 0b011, rd),
        Instr::Xor { rd, rs1, rs2 } => r_form(0b000_0000, rs2, rs1, 0b100, rd),
        Instr::Srl { rd, rs1, rs2 } => r_form(0b000_0000, rs2, rs1, 0b101, rd),
        Instr::Sra { rd, rs1, rs2 } => r_form(0b010_0000, rs2, rs1, 0b101, rd),
        Instr::Or { rd, rs1, rs2 } => r_form(0b000_0000, rs2, rs1, 0b110, rd),
        Instr::And { rd, rs1, rs2 } => r_form(0b000_0000, rs2, rs1, 0b111, rd),
        Instr::Mul { rd, rs1, rs2 } => r_form(0b000_0001, rs2, rs1, 0b000, rd),
        Instr::Mulh { rd, rs1, rs2 } => r_form(0b000_0001, rs2, rs1, 0b001, rd),
        Instr::Mulhsu { rd, rs1, rs2 } => r_form(0b000_0001, rs2, rs1, 0b010, rd),
        Instr::Mulhu { rd, rs1, rs2 } => r_form(0b000_0001, rs2, rs1, 0b011, rd),
        Instr::Div { rd, rs1, rs2 } => r_form(0b000_0001, rs2, rs1, 0b100, rd),
        Instr::Divu { rd, rs1, rs2 } => r_form(0b000_0001, rs2, rs1, 0b101, rd),
        Instr::Rem { rd, rs1, rs2 } => r_form(0b000_0001, rs2, rs1, 0b110, rd),
        Instr::Remu { rd, rs1, rs2 } => r_form(0b000_0001, rs2, rs1, 0b111, rd),
        Instr::Fence {
            fm,
            pred,
            succ,
            rs1,
            rd,
        } => fence_form(fm, pred, succ, rs1, rd),
        Instr::Ecall => 0x0000_0073,
        Instr::Ebreak => 0x0010_0073,
    }
}

/// The fields, each in its place.
fn placed(funct7: u32, rs2: u32, rs1: Register, funct3: u32, rd: u32, opcode: u32) -> u32
    requires functions { AreFunctionCodes funct7 funct3 }
    requires rs2 { rs2 < 2 ^ 5 }
    requires rd { rd < 2 ^ 5 }
    requires opcode { opcode < 2 ^ 7 }
    ensures { IsOnlyWord (λ w. RForm w funct7 rs2 rs1 funct3 rd opcode) (r_word funct7 rs2 rs1 funct3 rd opcode) result }
{
    let high = funct7 * (1 << 25) + rs2 * (1 << 20) + rs1.number() as u32 * (1 << 15);
    high + funct3 * (1 << 12) + rd * (1 << 7) + opcode
}

/// An operation on registers.
fn r_form(funct7: u32, rs2: Register, rs1: Register, funct3: u32, rd: Register) -> u32
    requires { AreFunctionCodes funct7 funct3 }
    ensures { IsOnlyWord (λ w. RForm w funct7 rs2 rs1 funct3 rd 0b0110011) (r_word funct7 rs2 rs1 funct3 rd 0b0110011) result }
{
    placed(
        funct7,
        rs2.number() as u32,
        rs1,
        funct3,
        rd.number() as u32,
        opcode::OP,
    )
}

/// A shift by an immediate.
fn shift_form(funct7: u32, amount: ShiftAmount, rs1: Register, funct3: u32, rd: Register) -> u32
    requires { AreFunctionCodes funct7 funct3 }
    ensures { IsOnlyWord (λ w. RForm w funct7 amount rs1 funct3 rd 0b0010011) (r_word funct7 amount rs1 funct3 rd 0b0010011) result }
{
    placed(
        funct7,
        amount.number() as u32,
        rs1,
        funct3,
        rd.number() as u32,
        opcode::OP_IMM,
    )
}

/// The I form.
fn i_form(immediate: Immediate, rs1: Register, funct3: u32, rd: Register, opcode: u32) -> u32
    requires funct3 { funct3 < 2 ^ 3 }
    requires opcode { opcode < 2 ^ 7 }
    ensures { IsOnlyWord (λ w. IForm w immediate rs1 funct3 rd opcode) (i_word immediate rs1 funct3 rd opcode) result }
{
    let immediate = immediate.word();
    placed(
        immediate / 32 % 128,
        immediate % 32,
        rs1,
        funct3,
        rd.number() as u32,
        opcode,
    )
}

/// The S form, of stores.
fn s_form(offset: Immediate, rs2: Register, rs1: Register, funct3: u32) -> u32
    requires { funct3 < 2 ^ 3 }
    ensures { IsOnlyWord (λ w. SForm w offset rs2 rs1 funct3 0b0100011) (s_word offset rs2 rs1 funct3 0b0100011) result }
{
    let offset = offset.word();
    placed(
        offset / 32 % 128,
        rs2.number() as u32,
        rs1,
        funct3,
        offset % 32,
        opcode::STORE,
    )
}

/// The B form, of branches.
fn b_form(offset: BranchOffset, rs2: Register, rs1: Register, funct3: u32) -> u32
    requires { funct3 < 2 ^ 3 }
    ensures { IsOnlyWord (λ w. BForm w offset rs2 rs1 funct3 0b1100011) (b_word offset rs2 rs1 funct3 0b1100011) result }
{
    let offset = offset.word();
    let high = (offset >> 31) * 64 + (offset >> 5) % 64;
    let low = (offset >> 1) % 16 * 2 + (offset >> 11) % 2;
    placed(high, rs2.number() as u32, rs1, funct3, low, opcode::BRANCH)
}

/// The U form.
fn u_form(immediate: UpperImmediate, rd: Register, opcode: u32) -> u32
    requires { opcode < 2 ^ 7 }
    ensures { IsOnlyWord (λ w. UForm w immediate rd opcode) (u_word immediate rd opcode) result }
{
    immediate.word() + rd.number() as u32 * (1 << 7) + opcode
}

/// The J form, of JAL.
fn j_form(offset: JumpOffset, rd: Register) -> u32
    ensures { IsOnlyWord (λ w. JForm w offset rd 0b1101111) (j_word offset rd 0b1101111) result }
{
    let offset = offset.word();
    let high = (offset >> 31) * (1 << 31) + (offset >> 1) % 1024 * (1 << 21);
    let middle = (offset >> 11) % 2 * (1 << 20) + (offset >> 12) % 256 * (1 << 12);
    high + middle + rd.number() as u32 * (1 << 7) + opcode::JAL
}

/// FENCE.
fn fence_form(
    fm: FenceField,
    pred: FenceField,
    succ: FenceField,
    rs1: Register,
    rd: Register,
) -> u32
    ensures { IsOnlyWord (λ w. FenceForm w fm pred succ rs1 0b000 rd 0b0001111) (fence_word fm pred succ rs1 0b000 rd 0b0001111) result }
{
    let order = fm.number() as u32 * (1 << 8)
        + pred.number() as u32 * (1 << 4)
        + succ.number() as u32;
    placed(
        order / 32,
        order % 32,
        rs1,
        0b000,
        rd.number() as u32,
        opcode::MISC_MEM,
    )
}
