//! A recorder that keeps the rows up to date as turns are done.
ghost use Rattle.std.specs.Prelude.{◌≡◌, ◌↔◌, ℕ, IsTrue, List, [], IfOk};

use crate::page_row::PageRow;
use crate::page_states::{PageStates, add_pages, note_turn};
use commit::{Patch, changed_addresses};
use std::alloc::{AllocError, Global};
use std::collections::BTreeMap;
use token::{Recorder, Turn, TurnFault};

/// More turns and changed bytes than this together are refused as if memory ran out. No run comes near it: that would
/// take thousands of years.
const MOST_COUNTED: u64 = 1 << 62;

/// Keeps the sharing report up to date, turn by turn. It has what is counted of each page that was ever changed, and
/// no list of turns.
#[derive(Drop)]
pub struct SharingRecorder {
    alloc: Global,
    /// The pages that were ever changed.
    pages: PageStates,
    /// How many turns were recorded.
    turns: u64,
    /// How many turns were recorded and how many bytes they changed, together.
    counted: u64,
    /// What the turn changed that it is prepared for.
    addresses: Vec<u32>,
}

impl SharingRecorder {
    ghost use Rattle.sharing_report.specs.Recording.{AreInOrder, IsFull, Shares};
    ghost use Rattle.sharing_report.specs.Sharing.{IsSharing};
    ghost use Rattle.token.specs.Change.{Change};

    /// A recorder that has recorded no turn.
    pub fn new(alloc: Global) -> Self
        ensures { Shares result [] }
    {
        SharingRecorder {
            alloc,
            pages: BTreeMap::new(alloc),
            turns: 0,
            counted: 0,
            addresses: Vec::new(alloc),
        }
    }

    /// Whether it records nothing more: so much was counted, or the turn that it is prepared for changed so much.
    fn is_full(&self) -> bool
        ensures { IsTrue result ↔ IsFull self.now }
    {
        self.counted >= MOST_COUNTED || self.addresses.len() as u64 >= MOST_COUNTED
    }

    /// The sharing report of the turns that it has recorded: a row for each page with a byte that a turn changed,
    /// ascending.
    ///
    /// # Errors
    ///
    /// Only out of memory.
    pub fn rows(&self) -> Result<Vec<PageRow>, AllocError>
        ensures { IfOk result (λ rows. (changes : List Change) →
            Shares self.now changes → AreInOrder changes → IsSharing changes rows.items) }
    {
        let mut rows = Vec::with_capacity(self.alloc, self.pages.len())?;
        for (page, state) in &self.pages {
            if state.is_changed() {
                rows.push(state.row(*page))?;
            }
        }
        Ok(rows)
    }
}

impl Recorder for SharingRecorder {
    ghost use Rattle.sharing_report.specs.Recording.{IsPrepared, Shares};

    ghost records = { λ recorder turns changes. Shares recorder changes };

    ghost is_ready = { IsPrepared };

    ghost writes = { ⊥ };

    fn prepare(&mut self, patch: Option<&Patch>) -> Result<(), TurnFault> {
        self.addresses = match patch {
            Some(patch) => changed_addresses(self.alloc, patch)?,
            None => Vec::new(self.alloc),
        };
        if self.is_full() {
            return Err(TurnFault::OutOfMemory);
        }
        add_pages(self.alloc, &mut self.pages, &self.addresses)?;
        Ok(())
    }

    fn record(&mut self, turn: Turn) {
        // A thread's number is below 256.
        let thread = (turn.thread % 256) as u8;
        note_turn(
            &mut self.pages,
            self.turns,
            turn.phase,
            thread,
            &self.addresses,
        );
        self.turns = self.turns.saturating_add(1);
        self.counted = self
            .counted
            .saturating_add(self.addresses.len() as u64)
            .saturating_add(1);
    }
}
