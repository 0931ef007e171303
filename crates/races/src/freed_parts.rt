//! All dead bytes.
ghost use Rattle.std.specs.Prelude.{◌≡◌, ℕ, ◌<◌, ◌≤◌};
ghost use Rattle.races.specs.FreedParts.{AreApart};

use crate::freed_block::FreedBlock;
use crate::freed_part::FreedPart;
use std::alloc::{AllocError, Global};
use std::collections::BTreeMap;

/// The dead bytes, by the address of the first of those that follow each other and died with one block. Each hint adds two entries at most.
#[derive(Drop)]
pub(crate) struct FreedParts {
    parts: BTreeMap<u64, FreedPart>,
    ghost apart: { AreApart parts },
}

impl FreedParts {
    ghost use Rattle.std.specs.Prelude.{◌+◌, ◌*◌, ◌^◌, ◌↔◌, IsFalse, IsTrue, IfNone, IfSome, OnOk, Some};
    ghost use Rattle.races.specs.FreedParts.{HasStart, Holds, IsCut, IsEdge, IsEntry, IsKilled, IsLastBefore, IsTrimmed, KeepsEdges, KeepsHeld};
    ghost use Rattle.races.specs.Lives.{IsAmong, byte_at};
    ghost use Rattle.races.specs.declared.freed_block.FreedBlock.{FreedBlock as Block};

    /// No byte.
    pub(crate) fn new(alloc: Global) -> Self
        ensures { (byte : ℕ) (block : Block) → ¬ Holds result.parts byte block }
    {
        FreedParts {
            parts: BTreeMap::new(alloc),
        }
    }

    /// Whether there is no byte.
    #[inline(always)]
    pub(crate) fn is_empty(&self) -> bool
        ensures { IsTrue result → (byte : ℕ) (block : Block) → ¬ Holds self.now.parts byte block }
    {
        self.parts.is_empty()
    }

    /// Whether a byte of a word is among them.
    pub(crate) fn has_word(&self, word: u32) -> bool
        ensures { IsFalse result → (place : ℕ) (block : Block) → place < 4 → ¬ Holds self.now.parts (byte_at word place) block }
    {
        let first = u64::from(word) * 4;
        match self.last_before(first + 4) {
            Some((_, part)) => first < part.end,
            None => false,
        }
    }

    /// The block that the byte at a place of a word died with, if it is among them.
    pub(crate) fn block_at(&self, word: u32, place: u8) -> Option<FreedBlock>
        ensures { (block : Block) → (result ≡ Some block) ↔ Holds self.now.parts (byte_at word place) block }
    {
        let byte = u64::from(word) * 4 + u64::from(place);
        match self.last_before(byte + 1) {
            Some((_, part)) if byte < part.end => Some(part.block),
            _ => None,
        }
    }

    /// Bytes die, as a block.
    pub(crate) fn kill(&mut self, block: FreedBlock) -> Result<(), AllocError>
        ensures { OnOk result (IsKilled self.old.parts block self.new.parts) }
    {
        if block.length == 0 {
            return Ok(());
        }
        let start = u64::from(block.address);
        let end = start + u64::from(block.length);
        self.cut(start, end)?;
        self.parts.insert(start, FreedPart { end, block })?;
        Ok(())
    }

    /// The bytes from an address on, so many, begin to live.
    pub(crate) fn revive(&mut self, address: u32, length: u32) -> Result<(), AllocError>
        ensures { OnOk result (IsCut self.old.parts address (address + length) self.new.parts) }
    {
        let start = u64::from(address);
        self.cut(start, start + u64::from(length))
    }

    /// The bytes from a start up to an end are no longer among them.
    fn cut(&mut self, start: u64, end: u64) -> Result<(), AllocError>
        requires { start ≤ end }
        ensures { OnOk result (IsCut self.old.parts start end self.new.parts) }
    {
        self.split(start)?;
        self.split(end)?;
        self.remove_within(start, end);
        Ok(())
    }

    /// The bytes before an address and those after it have entries of their own.
    fn split(&mut self, at: u64) -> Result<(), AllocError>
        ensures held { OnOk result (KeepsHeld self.old.parts self.new.parts) }
        ensures edge { OnOk result (IsEdge self.new.parts at) }
        ensures edges { OnOk result (KeepsEdges self.old.parts self.new.parts) }
    {
        match self.last_before(at) {
            Some((start, part)) if at < part.end => {
                self.parts.insert(
                    start,
                    FreedPart {
                        end: at,
                        block: part.block,
                    },
                )?;
                self.parts.insert(at, part)?;
                Ok(())
            }
            _ => Ok(()),
        }
    }

    /// Removes the entries that begin from a start on, and before an end.
    fn remove_within(&mut self, start: u64, end: u64)
        ensures { IsTrimmed self.old.parts start end self.new.parts }
    {
        while let Some(first) = self.start_within(start, end) {
            self.parts.remove(&first);
        }
    }

    /// Where one of the entries begins that begin from a start on, and before an end.
    fn start_within(&self, start: u64, end: u64) -> Option<u64>
        ensures some { IfSome result (λ first. (start ≤ first) × (first < end) × HasStart self.now.parts first) }
        ensures none { IfNone result ((first : ℕ) → start ≤ first → first < end → ¬ HasStart self.now.parts first) }
    {
        match self.last_before(end) {
            Some((first, _)) if start <= first => Some(first),
            _ => None,
        }
    }

    /// The last of the entries that begin before an address.
    fn last_before(&self, end: u64) -> Option<(u64, FreedPart)>
        ensures { IsLastBefore self.now.parts end result }
    {
        match self.parts.range(..end).next_back() {
            Some((start, part)) => Some((*start, *part)),
            None => None,
        }
    }
}
