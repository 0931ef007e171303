//! A plain scan of all positions of a run.
use crate::rows::{WORD, word_at};
use decoder::{Instr, decode};
use hart::Hart;
use std::alloc::{AllocError, Global};
use timeline::{Stage, Timeline};

/// What a plain scan sees at a position.
#[derive(Clone, Copy)]
pub struct Seen {
    pub thread: u32,
    /// The pc, none if no instruction is due.
    pub pc: Option<u32>,
    /// The instruction stores to the word that is looked at.
    pub stores: bool,
    /// The instruction is a call, of which a watch may have an event for what the call or the commit does.
    pub is_call: bool,
}

/// All positions of a run, from the present one on.
pub fn scan(alloc: Global, timeline: &mut Timeline) -> Result<Vec<Seen>, AllocError> {
    let mut seen = Vec::new(alloc);
    for _ in 0..1_000_000 {
        seen.push(seen_at(timeline))?;
        if !timeline.step()? {
            break;
        }
    }
    Ok(seen)
}

/// What is seen at the present position.
fn seen_at(timeline: &Timeline) -> Seen {
    let thread = timeline.thread();
    match due_at(timeline, thread) {
        Some(hart) => seen_before(thread, &hart, word_at(timeline, thread, hart.pc())),
        None => Seen {
            thread,
            pc: None,
            stores: false,
            is_call: false,
        },
    }
}

/// The hart whose instruction is due.
fn due_at(timeline: &Timeline, thread: u32) -> Option<Hart> {
    match timeline.stage() {
        Stage::Segment | Stage::Trap { .. } => timeline.hart(thread),
        _ => None,
    }
}

/// What is seen before the instruction of a word.
fn seen_before(thread: u32, hart: &Hart, word: Option<u32>) -> Seen {
    let instr = word.and_then(|word| decode(word));
    Seen {
        thread,
        pc: Some(hart.pc()),
        stores: instr.is_some_and(|instr| stores_to_word(hart, &instr)),
        is_call: instr == Some(Instr::Ecall),
    }
}

/// Whether an instruction stores to the word that is looked at.
fn stores_to_word(hart: &Hart, instr: &Instr) -> bool {
    let (base, offset, width) = match *instr {
        Instr::Sb { rs1, offset, .. } => (rs1, offset.word(), 1),
        Instr::Sh { rs1, offset, .. } => (rs1, offset.word(), 2),
        Instr::Sw { rs1, offset, .. } => (rs1, offset.word(), 4),
        _ => return false,
    };
    let address = hart.reg(usize::from(base.number())).wrapping_add(offset);
    address.wrapping_add(width) > WORD && address < WORD + 4
}
