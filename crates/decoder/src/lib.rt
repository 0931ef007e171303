//! Instruction words of RV32IM, both ways: [`decode`] gives the instruction of a word, [`encode`] the word of an instruction.
//!
//! RV32IM is the base RV32I with the extension M for multiplication and division, in the RISC-V Unprivileged
//! ISA, document version 20191213. It has 48 instructions, and [`Instr`] has a case for each. What both
//! functions rest on is the relation `Encodes word instr` of `specs/Encoding.antt`: one row of field equations
//! for each instruction, as the ISA lists them in chapter 24.
//!
//! - `decode(word)` is the one instruction that the word encodes, and `None` exactly where there is none.
//! - `encode(&instr)` is the one word that encodes the instruction.
//!
//! So each undoes the other. A word without an instruction is illegal: FENCE.I, the CSR instructions, a shift
//! by an immediate with another funct7, compressed instructions, all zeros and all ones among them. FENCE fixes
//! its opcode and funct3 alone, and its other five fields are kept as they are.
//!
//! The parts of an instruction are within their ranges by their types: a [`Register`] is 0 to 31, a
//! [`ShiftAmount`] too, a [`FenceField`] 0 to 15. An immediate is kept as a word of 32 bits that its sign bit
//! fills from above, since the machine computes on words modulo 2^32: -1 is 0xFFFF_FFFF.
//!
//! Nothing here allocates, and no call fails but by `None`.
#![tactic(auto)]

mod decoding;
mod encoding;
mod field;
mod instr;
mod opcode;
mod parts;
mod register;
mod signed_word;

pub use decoding::decode;
pub use encoding::encode;
pub use field::{FenceField, Field, ShiftAmount};
pub use instr::Instr;
pub use register::Register;
pub use signed_word::{BranchOffset, Immediate, JumpOffset, SignedWord, UpperImmediate};
