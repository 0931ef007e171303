//! The parts of an instruction word.

ghost use Rattle.std.specs.Prelude.{◌≡◌};
ghost use Rattle.decoder.specs.Word.{bits};
ghost use Rattle.decoder.specs.Forms.{i_immediate, s_immediate, b_immediate, u_immediate, j_immediate};

use crate::field::{FenceField, ShiftAmount};
use crate::register::Register;
use crate::signed_word::{BranchOffset, Immediate, JumpOffset, UpperImmediate};

/// Bits 6 to 0.
#[inline(always)]
pub(crate) fn opcode_of(word: u32) -> u32
    ensures { result ≡ bits word 0 7 }
{
    word % 128
}

/// Bits 14 to 12.
#[inline(always)]
pub(crate) fn funct3_of(word: u32) -> u32
    ensures { result ≡ bits word 12 3 }
{
    (word >> 12) % 8
}

/// Bits 31 to 25.
#[inline(always)]
pub(crate) fn funct7_of(word: u32) -> u32
    ensures { result ≡ bits word 25 7 }
{
    word >> 25
}

/// Bits 11 to 7.
#[inline(always)]
pub(crate) fn rd_of(word: u32) -> Register
    ensures { result ≡ bits word 7 5 }
{
    Register::new(((word >> 7) % 32) as u8)
}

/// Bits 19 to 15.
#[inline(always)]
pub(crate) fn rs1_of(word: u32) -> Register
    ensures { result ≡ bits word 15 5 }
{
    Register::new(((word >> 15) % 32) as u8)
}

/// Bits 24 to 20.
#[inline(always)]
pub(crate) fn rs2_of(word: u32) -> Register
    ensures { result ≡ bits word 20 5 }
{
    Register::new(((word >> 20) % 32) as u8)
}

/// The amount of a shift by an immediate, in the place of rs2.
#[inline(always)]
pub(crate) fn amount_of(word: u32) -> ShiftAmount
    ensures { result ≡ bits word 20 5 }
{
    ShiftAmount::new(((word >> 20) % 32) as u8)
}

/// Bits 31 to 28.
#[inline(always)]
pub(crate) fn fm_of(word: u32) -> FenceField
    ensures { result ≡ bits word 28 4 }
{
    FenceField::new((word >> 28) as u8)
}

/// Bits 27 to 24.
#[inline(always)]
pub(crate) fn pred_of(word: u32) -> FenceField
    ensures { result ≡ bits word 24 4 }
{
    FenceField::new(((word >> 24) % 16) as u8)
}

/// Bits 23 to 20.
#[inline(always)]
pub(crate) fn succ_of(word: u32) -> FenceField
    ensures { result ≡ bits word 20 4 }
{
    FenceField::new(((word >> 20) % 16) as u8)
}

#[inline(always)]
pub(crate) fn i_immediate_of(word: u32) -> Immediate
    ensures { result ≡ i_immediate word }
{
    Immediate::new((word >> 31) * 0xFFFF_F800 + (word >> 20) % 2048)
}

#[inline(always)]
pub(crate) fn s_immediate_of(word: u32) -> Immediate
    ensures { result ≡ s_immediate word }
{
    Immediate::new((word >> 31) * 0xFFFF_F800 + (word >> 25) % 64 * 32 + (word >> 7) % 32)
}

#[inline(always)]
pub(crate) fn b_immediate_of(word: u32) -> BranchOffset
    ensures { result ≡ b_immediate word }
{
    let high = (word >> 31) * 0xFFFF_F000 + (word >> 7) % 2 * 2048;
    BranchOffset::new(high + (word >> 25) % 64 * 32 + (word >> 8) % 16 * 2)
}

#[inline(always)]
pub(crate) fn u_immediate_of(word: u32) -> UpperImmediate
    ensures { result ≡ u_immediate word }
{
    UpperImmediate::new((word >> 12) * 4096)
}

#[inline(always)]
pub(crate) fn j_immediate_of(word: u32) -> JumpOffset
    ensures { result ≡ j_immediate word }
{
    let high = (word >> 31) * 0xFFF0_0000 + (word >> 12) % 256 * 4096;
    JumpOffset::new(high + (word >> 20) % 2 * 2048 + (word >> 21) % 1024 * 2)
}
