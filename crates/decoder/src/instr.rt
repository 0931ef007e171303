//! The 48 instructions of RV32IM as one flat enum, each with its fields.
use crate::encoding::encode;
use crate::field::{FenceField, ShiftAmount};
use crate::register::Register;
use crate::signed_word::{BranchOffset, Immediate, JumpOffset, UpperImmediate};
use std::fmt;

/// An instruction of RV32IM: the base RV32I and the extension M for multiplication and division, as the
/// RISC-V Unprivileged ISA, document version 20191213, lists them in chapters 2 and 7.
///
/// `rd` is the register that an instruction writes, `rs1` and `rs2` are those that it reads. Sums are modulo
/// 2^32. What each instruction does is said here in short; the ISA has it whole.
#[derive(Clone, Copy)]
pub enum Instr {
    /// LUI: the immediate into `rd`.
    Lui {
        rd: Register,
        immediate: UpperImmediate,
    },
    /// AUIPC: pc plus the immediate into `rd`.
    Auipc {
        rd: Register,
        immediate: UpperImmediate,
    },
    /// JAL: jumps to pc plus the offset, with the address of the next instruction in `rd`.
    Jal {
        rd: Register,
        offset: JumpOffset,
    },
    /// JALR: jumps to `rs1` plus the offset with bit 0 cleared, with the address of the next instruction in `rd`.
    Jalr {
        rd: Register,
        rs1: Register,
        offset: Immediate,
    },
    /// BEQ: branches to pc plus the offset where `rs1` and `rs2` are equal.
    Beq {
        rs1: Register,
        rs2: Register,
        offset: BranchOffset,
    },
    /// BNE: branches where `rs1` and `rs2` differ.
    Bne {
        rs1: Register,
        rs2: Register,
        offset: BranchOffset,
    },
    /// BLT: branches where `rs1` is below `rs2` as signed numbers.
    Blt {
        rs1: Register,
        rs2: Register,
        offset: BranchOffset,
    },
    /// BGE: branches where `rs1` is at least `rs2` as signed numbers.
    Bge {
        rs1: Register,
        rs2: Register,
        offset: BranchOffset,
    },
    /// BLTU: branches where `rs1` is below `rs2` as unsigned numbers.
    Bltu {
        rs1: Register,
        rs2: Register,
        offset: BranchOffset,
    },
    /// BGEU: branches where `rs1` is at least `rs2` as unsigned numbers.
    Bgeu {
        rs1: Register,
        rs2: Register,
        offset: BranchOffset,
    },
    /// LB: the byte at `rs1` plus the offset, sign-extended, into `rd`.
    Lb {
        rd: Register,
        rs1: Register,
        offset: Immediate,
    },
    /// LH: the two bytes at `rs1` plus the offset, sign-extended, into `rd`.
    Lh {
        rd: Register,
        rs1: Register,
        offset: Immediate,
    },
    /// LW: the four bytes at `rs1` plus the offset into `rd`.
    Lw {
        rd: Register,
        rs1: Register,
        offset: Immediate,
    },
    /// LBU: the byte at `rs1` plus the offset, zero-extended, into `rd`.
    Lbu {
        rd: Register,
        rs1: Register,
        offset: Immediate,
    },
    /// LHU: the two bytes at `rs1` plus the offset, zero-extended, into `rd`.
    Lhu {
        rd: Register,
        rs1: Register,
        offset: Immediate,
    },
    /// SB: the low byte of `rs2` to `rs1` plus the offset.
    Sb {
        rs1: Register,
        rs2: Register,
        offset: Immediate,
    },
    /// SH: the low two bytes of `rs2` to `rs1` plus the offset.
    Sh {
        rs1: Register,
        rs2: Register,
        offset: Immediate,
    },
    /// SW: the four bytes of `rs2` to `rs1` plus the offset.
    Sw {
        rs1: Register,
        rs2: Register,
        offset: Immediate,
    },
    /// ADDI: `rs1` plus the immediate into `rd`.
    Addi {
        rd: Register,
        rs1: Register,
        immediate: Immediate,
    },
    /// SLTI: 1 where `rs1` is below the immediate as signed numbers, else 0, into `rd`.
    Slti {
        rd: Register,
        rs1: Register,
        immediate: Immediate,
    },
    /// SLTIU: 1 where `rs1` is below the immediate as unsigned numbers, else 0, into `rd`.
    Sltiu {
        rd: Register,
        rs1: Register,
        immediate: Immediate,
    },
    /// XORI: `rs1` bitwise exclusive or the immediate into `rd`.
    Xori {
        rd: Register,
        rs1: Register,
        immediate: Immediate,
    },
    /// ORI: `rs1` bitwise or the immediate into `rd`.
    Ori {
        rd: Register,
        rs1: Register,
        immediate: Immediate,
    },
    /// ANDI: `rs1` bitwise and the immediate into `rd`.
    Andi {
        rd: Register,
        rs1: Register,
        immediate: Immediate,
    },
    /// SLLI: `rs1` shifted left by the amount into `rd`.
    Slli {
        rd: Register,
        rs1: Register,
        amount: ShiftAmount,
    },
    /// SRLI: `rs1` shifted right by the amount, zeros coming in, into `rd`.
    Srli {
        rd: Register,
        rs1: Register,
        amount: ShiftAmount,
    },
    /// SRAI: `rs1` shifted right by the amount, copies of its sign bit coming in, into `rd`.
    Srai {
        rd: Register,
        rs1: Register,
        amount: ShiftAmount,
    },
    /// ADD: `rs1` plus `rs2` into `rd`.
    Add {
        rd: Register,
        rs1: Register,
        rs2: Register,
    },
    /// SUB: `rs1` minus `rs2` into `rd`.
    Sub {
        rd: Register,
        rs1: Register,
        rs2: Register,
    },
    /// SLL: `rs1` shifted left by the low five bits of `rs2` into `rd`.
    Sll {
        rd: Register,
        rs1: Register,
        rs2: Register,
    },
    /// SLT: 1 where `rs1` is below `rs2` as signed numbers, else 0, into `rd`.
    Slt {
        rd: Register,
        rs1: Register,
        rs2: Register,
    },
    /// SLTU: 1 where `rs1` is below `rs2` as unsigned numbers, else 0, into `rd`.
    Sltu {
        rd: Register,
        rs1: Register,
        rs2: Register,
    },
    /// XOR: `rs1` bitwise exclusive or `rs2` into `rd`.
    Xor {
        rd: Register,
        rs1: Register,
        rs2: Register,
    },
    /// SRL: `rs1` shifted right by the low five bits of `rs2`, zeros coming in, into `rd`.
    Srl {
        rd: Register,
        rs1: Register,
        rs2: Register,
    },
    /// SRA: `rs1` shifted right by the low five bits of `rs2`, copies of its sign bit coming in, into `rd`.
    Sra {
        rd: Register,
        rs1: Register,
        rs2: Register,
    },
    /// OR: `rs1` bitwise or `rs2` into `rd`.
    Or {
        rd: Register,
        rs1: Register,
        rs2: Register,
    },
    /// AND: `rs1` bitwise and `rs2` into `rd`.
    And {
        rd: Register,
        rs1: Register,
        rs2: Register,
    },
    /// MUL: the low word of `rs1` times `rs2` into `rd`.
    Mul {
        rd: Register,
        rs1: Register,
        rs2: Register,
    },
    /// MULH: the high word of `rs1` times `rs2`, both signed, into `rd`.
    Mulh {
        rd: Register,
        rs1: Register,
        rs2: Register,
    },
    /// MULHSU: the high word of `rs1` times `rs2`, the first signed, the second unsigned, into `rd`.
    Mulhsu {
        rd: Register,
        rs1: Register,
        rs2: Register,
    },
    /// MULHU: the high word of `rs1` times `rs2`, both unsigned, into `rd`.
    Mulhu {
        rd: Register,
        rs1: Register,
        rs2: Register,
    },
    /// DIV: `rs1` divided by `rs2`, both signed, rounded toward zero, into `rd`.
    Div {
        rd: Register,
        rs1: Register,
        rs2: Register,
    },
    /// DIVU: `rs1` divided by `rs2`, both unsigned, into `rd`.
    Divu {
        rd: Register,
        rs1: Register,
        rs2: Register,
    },
    /// REM: the remainder of `rs1` by `rs2`, both signed, with the sign of `rs1`, into `rd`.
    Rem {
        rd: Register,
        rs1: Register,
        rs2: Register,
    },
    /// REMU: the remainder of `rs1` by `rs2`, both unsigned, into `rd`.
    Remu {
        rd: Register,
        rs1: Register,
        rs2: Register,
    },
    /// FENCE: orders memory accesses of kinds `pred` before those of kinds `succ`, in the mode `fm`. Any values
    /// stand in the five fields.
    Fence {
        fm: FenceField,
        pred: FenceField,
        succ: FenceField,
        rs1: Register,
        rd: Register,
    },
    /// ECALL: a call of the environment.
    Ecall,
    /// EBREAK: a breakpoint.
    Ebreak,
}

/// Two instructions are equal exactly if their words are. Written by hand, since a derived impl compares each of the 48 cases
/// with each, which takes longer to prove than most of the crate.
impl PartialEq for Instr {
    ghost use Rattle.std.specs.Prelude.{◌≡◌, ◌==◌, ◌↔◌, IsTrue};
    ghost use Rattle.std.specs.Cmp.{on_equiv, partial_equiv_from_equiv, nat_eq_equiv};
    ghost use Rattle.decoder.specs.Encoded.{encoded};

    ghost eq = { λ a b. encoded a == encoded b };

    ghost laws = { partial_equiv_from_equiv (on_equiv encoded nat_eq_equiv) };

    fn eq(&self, other: &Instr) -> bool
        ensures computed { result ≡ (encoded self.now == encoded other.now) }
        ensures same { IsTrue result ↔ (self.now ≡ other.now) }
    {
        encode(self) == encode(other)
    }
}

impl Eq for Instr {
    ghost use Rattle.std.specs.Cmp.{on_equiv, nat_eq_equiv};
    ghost use Rattle.decoder.specs.Encoded.{encoded};

    ghost laws = { on_equiv encoded nat_eq_equiv };
}

/// Its word. Written by hand, since the derived impl of this many cases takes longer to prove than most of the crate.
impl fmt::Debug for Instr {
    fn fmt<W: fmt::Write>(&self, f: &mut fmt::Formatter<W>) -> fmt::Result {
        write!(f, "Instr({:#010x})", encode(self))
    }
}
