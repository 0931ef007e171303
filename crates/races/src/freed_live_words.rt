//! Words that are known to have no dead byte.
ghost use Rattle.std.specs.Prelude.{◌≡◌, ℕ, ◌<◌, ◌≤◌, ◌⊎◌, IsTrue};
ghost use Rattle.races.specs.FreedRecording.{IsLiveIn};

use std::alloc::Global;

/// So many slots there are.
const SLOTS: usize = 4096;

/// Some of the words that have no dead byte. Each word has one slot, by its number, which it shares with others. If there is no memory for
/// the slots, no word is in one.
#[derive(Drop)]
pub(crate) struct FreedLiveWords {
    alloc: Global,
    /// In each slot the number of its word and one more, or 0.
    slots: Vec<u64>,
}

impl FreedLiveWords {
    /// No word.
    pub(crate) fn new(alloc: Global) -> Self
        ensures { (word : ℕ) → ¬ IsLiveIn result.slots.items word }
    {
        FreedLiveWords {
            alloc,
            slots: Vec::new(alloc),
        }
    }

    /// Whether a word is in its slot.
    #[inline(always)]
    pub(crate) fn has(&self, word: u32) -> bool
        ensures { IsTrue result → IsLiveIn self.now.slots.items word }
    {
        match self.slots.get(word as usize % SLOTS) {
            Some(live) => *live == u64::from(word) + 1,
            None => false,
        }
    }

    /// A word takes its slot.
    pub(crate) fn note(&mut self, word: u32)
        ensures { (other : ℕ) → IsLiveIn self.new.slots.items other → (other ≡ word) ⊎ IsLiveIn self.old.slots.items other }
    {
        self.make_room();
        let slot = word as usize % SLOTS;
        if slot < self.slots.len() {
            self.slots[slot] = u64::from(word) + 1;
        }
    }

    /// The words from one on, and before another, are in no slot.
    pub(crate) fn forget(&mut self, first: u32, end: u32)
        ensures rest { (other : ℕ) → IsLiveIn self.new.slots.items other → IsLiveIn self.old.slots.items other }
        ensures gone { (other : ℕ) → first ≤ other → other < end → ¬ IsLiveIn self.new.slots.items other }
    {
        if end.saturating_sub(first) as usize >= self.slots.len() {
            self.slots.clear();
            return;
        }
        for word in first..end {
            self.empty(word);
        }
    }

    /// A word's slot is empty.
    fn empty(&mut self, word: u32)
        ensures rest { (other : ℕ) → IsLiveIn self.new.slots.items other → IsLiveIn self.old.slots.items other }
        ensures gone { ¬ IsLiveIn self.new.slots.items word }
    {
        let slot = word as usize % SLOTS;
        if slot < self.slots.len() {
            self.slots[slot] = 0;
        }
    }

    /// There are slots, if there is memory for them.
    fn make_room(&mut self)
        ensures { (other : ℕ) → IsLiveIn self.new.slots.items other → IsLiveIn self.old.slots.items other }
    {
        if self.slots.is_empty()
            && let Ok(slots) = vec![in self.alloc; 0; SLOTS]
        {
            self.slots = slots;
        }
    }
}
