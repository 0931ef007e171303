//! Where a serial state stands, copied for a comparison.
use crate::picture::Picture;
use std::alloc::{AllocError, Global};
use thread_table::{Thread, Threads};
use token::{Kept, Need, Serial, Turn, TurnChange};

/// A copy of all that a run lends.
#[derive(Drop)]
pub struct Standing {
    need: Need,
    phase: u64,
    threads: Vec<Thread>,
    turns: Vec<Turn>,
    /// How many threads have a turn in the phase and how many bytes the last turn wrote, those threads, and the changes.
    numbers: Vec<u32>,
    /// The memories at the phase's start and at present, the output, and what the last turn wrote of it.
    bytes: Picture,
}

impl Standing {
    /// The copy of a run.
    pub fn of(alloc: Global, serial: &Serial<Kept>) -> Result<Self, AllocError> {
        let bytes = Picture::of(alloc, serial.base())?;
        let mut standing = Standing {
            need: serial.need(),
            phase: serial.phase(),
            threads: Vec::new(alloc),
            turns: Vec::new(alloc),
            numbers: Vec::new(alloc),
            bytes,
        };
        standing.push(serial)?;
        Ok(standing)
    }

    /// Adds all but the memory at the phase's start.
    fn push(&mut self, serial: &Serial<Kept>) -> Result<(), AllocError> {
        push_bytes(&mut self.bytes, serial)?;
        push_threads(&mut self.threads, serial.threads())?;
        self.turns.extend_from_slice(serial.turns())?;
        push_numbers(&mut self.numbers, serial)
    }

    /// Whether a run lends the same.
    pub fn is_of(&self, alloc: Global, serial: &Serial<Kept>) -> Result<bool, AllocError> {
        let other = Standing::of(alloc, serial)?;
        Ok(self.is_same(&other))
    }

    /// Whether it is the copy of what another is the copy of.
    fn is_same(&self, other: &Standing) -> bool {
        self.need == other.need
            && self.phase == other.phase
            && self.threads.as_slice() == other.threads.as_slice()
            && self.turns.as_slice() == other.turns.as_slice()
            && self.numbers.as_slice() == other.numbers.as_slice()
            && self.bytes.is_same(&other.bytes)
    }
}

/// Adds the present memory and the output.
fn push_bytes(bytes: &mut Picture, serial: &Serial<Kept>) -> Result<(), AllocError> {
    bytes.push_memory(serial.now())?;
    bytes.push_bytes(serial.output())?;
    bytes.push_bytes(serial.fresh())
}

/// Adds how many threads have a turn in the phase and how many bytes the last turn wrote, those threads, and the changes.
fn push_numbers(numbers: &mut Vec<u32>, serial: &Serial<Kept>) -> Result<(), AllocError> {
    push_count(numbers, serial.list().len())?;
    push_count(numbers, serial.fresh().len())?;
    numbers.extend_from_slice(serial.list())?;
    push_changes(numbers, serial.changes())
}

/// Adds the threads, side by side.
fn push_threads(copy: &mut Vec<Thread>, threads: &Threads) -> Result<(), AllocError> {
    for number in 0..threads.len() {
        copy.push(*threads.get(number as u32))?;
    }
    Ok(())
}

/// Adds the changes, one after another.
fn push_changes(numbers: &mut Vec<u32>, changes: &[TurnChange]) -> Result<(), AllocError> {
    for change in changes {
        push_change(numbers, change)?;
    }
    Ok(())
}

/// Adds of a change its thread, its phase, how many addresses it has, and these.
fn push_change(numbers: &mut Vec<u32>, change: &TurnChange) -> Result<(), AllocError> {
    let phase = (change.phase() % 0x1_0000_0000) as u32;
    numbers.extend_from_slice(&[change.thread(), phase])?;
    push_count(numbers, change.addresses().len())?;
    numbers.extend_from_slice(change.addresses())
}

/// Adds how many something are.
fn push_count(numbers: &mut Vec<u32>, count: usize) -> Result<(), AllocError> {
    Ok(numbers.push((count % 0x1_0000_0000) as u32)?)
}
