//! Disassembly of RV32IM: the text of an instruction word, and the listing of a program.
//!
//! A text is the instruction's name in lower case and its operands, without pseudo-instructions (RISC-V
//! Unprivileged ISA, document version 20191213). One space follows the name, and commas join the operands:
//! `addi x17,x0,1`. A branch or a jump shows its target, the address of the instruction plus the offset. A
//! word without an instruction is shown as `.word 0x00000000`.
//!
//! - [`text`] is the text of a word at an address. Distinct words at one address have distinct texts.
//! - [`listing`] is the listing of a program: a line for each word of its executable segments.
//!
//! Both fail only when memory runs out.
#![tactic(auto)]

mod disassembly;
mod instruction;
mod line;
mod operand;
mod program;
mod tables;

pub use disassembly::{distinct_texts, text};
pub use program::listing;
