//! The major opcodes, by the names of the RISC-V ISA, table 24.1.

pub(crate) const LOAD: u32 = 0b000_0011;

pub(crate) const MISC_MEM: u32 = 0b000_1111;

pub(crate) const OP_IMM: u32 = 0b001_0011;

pub(crate) const AUIPC: u32 = 0b001_0111;

pub(crate) const STORE: u32 = 0b010_0011;

pub(crate) const OP: u32 = 0b011_0011;

pub(crate) const LUI: u32 = 0b011_0111;

pub(crate) const BRANCH: u32 = 0b110_0011;

pub(crate) const JALR: u32 = 0b110_0111;

pub(crate) const JAL: u32 = 0b110_1111;

pub(crate) const SYSTEM: u32 = 0b111_0011;
