//! Lines on words and their instructions.

use crate::answer::Answer;
use crate::numbers::numbers_of;
use decoder::*;
use disassembler::text;
use std::alloc::{AllocError, Global};

/// Answers a line on words, if it is one.
pub fn take_word_line(
    alloc: Global,
    answer: &mut Answer,
    verb: &str,
    rest: &str,
) -> Result<bool, AllocError> {
    match verb {
        "text" => write_text(alloc, answer, numbers_of(rest))?,
        "parts" => write_parts(answer),
        "make" => write_made(answer, rest),
        _ => return Ok(false),
    }
    Ok(true)
}

/// Writes the text of a word at an address, and whether the word's instruction is encoded otherwise.
fn write_text(
    alloc: Global,
    answer: &mut Answer,
    [address, word, _, _, _, _]: [u32; 6],
) -> Result<(), AllocError> {
    answer.push(text(alloc, address, word)?.as_str());
    let is_so = match decode(word) {
        Some(instr) => encode(&instr) == word,
        None => answer.text().starts_with(".word "),
    };
    if !is_so {
        answer.push(", which is encoded otherwise");
    }
    Ok(())
}

/// Writes the numbers of a register, an amount, a field and an immediate.
fn write_parts(answer: &mut Answer) {
    answer.numbers(&[
        u32::from(Register::new(31).number()),
        u32::from(ShiftAmount::new(31).number()),
        u32::from(FenceField::new(15).number()),
        Immediate::new(0xFFFF_F800).word(),
    ]);
}

/// Writes the word of an instruction that is made of its parts, and whether the word is decoded otherwise.
fn write_made(answer: &mut Answer, form: &str) {
    let Some(instr) = made(form) else {
        return answer.word("no instruction");
    };
    let word = encode(&instr);
    answer.number(word);
    if decode(word) != Some(instr) {
        answer.push(", which is decoded otherwise");
    }
}

/// An instruction with each kind of part: its destination is x31, and its sources are x2 and x3.
fn made(form: &str) -> Option<Instr> {
    let (rd, rs1, rs2) = (Register::new(31), Register::new(2), Register::new(3));
    let instr = match form {
        "srai" => Instr::Srai {
            rd,
            rs1,
            amount: ShiftAmount::new(31),
        },
        "addi" => Instr::Addi {
            rd,
            rs1,
            immediate: Immediate::new(0xFFFF_F800),
        },
        "lui" => Instr::Lui {
            rd,
            immediate: UpperImmediate::new(0x1234_5000),
        },
        "jal" => Instr::Jal {
            rd,
            offset: JumpOffset::new(0x000F_FFFE),
        },
        "bge" => Instr::Bge {
            rs1,
            rs2,
            offset: BranchOffset::new(0xFFFF_F000),
        },
        "fence" => fence(rs1, rd),
        _ => return None,
    };
    Some(instr)
}

/// A fence with the fields 8, 3 and 15.
fn fence(rs1: Register, rd: Register) -> Instr {
    Instr::Fence {
        fm: FenceField::new(8),
        pred: FenceField::new(3),
        succ: FenceField::new(15),
        rs1,
        rd,
    }
}
