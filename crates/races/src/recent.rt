//! The accesses that were told lately, some of them.
ghost use Rattle.std.specs.Prelude.{◌≡◌, ◌≤◌, ◌⊎◌, [], Contains, IsTrue};
ghost use Rattle.races.specs.Recent.{IsRecent, IsSlotOf};
ghost use Rattle.races.specs.declared.recent_access.RecentAccess.{RecentAccess as Told};

use crate::recent_access::RecentAccess;
use crate::site::Access;
use std::alloc::Global;

/// So many slots there are at first, and at most: powers of two.
const FEWEST_SLOTS: usize = 256;

const MOST_SLOTS: usize = 65536;
/// After so many calls of `forget_before` it is looked at whether fewer slots are enough.
const CALLS: u32 = 64;
/// What the addresses of instructions are multiplied with, so that several that access one word have slots far apart.
const SPREAD: u32 = 0x9e37_79b1;

/// Some of the accesses that were told lately: an access that is made again is mostly among them.
///
/// Each access has one slot, by its word and its instruction, which it shares with others. Bytes of the word that its instruction accesses one
/// after another in one turn are in it together. Slots become more if many accesses are told between two calls of `forget_before`, and fewer
/// if few are, so that those in use stay near the processor. If there is no memory for more, those that are there are used on.
#[derive(Drop)]
pub(crate) struct Recent {
    alloc: Global,
    /// The access that was last noted in each slot.
    slots: Vec<RecentAccess>,
    /// One less than the slots are that are used: the first ones.
    mask: usize,
    /// How many accesses were noted since the last call of `forget_before`.
    noted: usize,
    /// How many were noted at most between two of its last calls.
    most: usize,
    /// How many calls those are.
    calls: u32,
    /// The accesses of this step and later ones count, and no others.
    since: u64,
}

impl Recent {
    /// No access. Those of step 1 and later ones will count.
    pub(crate) fn new(alloc: Global) -> Self
        ensures since { result.since ≡ 1 }
        ensures none { result.slots.items ≡ [] }
    {
        Recent {
            alloc,
            slots: Vec::new(alloc),
            mask: 0,
            noted: 0,
            most: 0,
            calls: 0,
            since: 1,
        }
    }

    /// Whether the bytes of an access are just those of a slot that counts, by the same instruction in the same turn.
    #[inline(always)]
    pub(crate) fn has_exactly(&self, access: &Access) -> bool
        ensures { IsTrue result → IsRecent self.now access.now }
    {
        match self.slots.get(self.place_of(access)) {
            Some(slot) => slot.is_of(access) && self.since <= slot.step,
            None => false,
        }
    }

    /// Whether the bytes of an access are among those of a slot that counts, by the same instruction in the same turn.
    pub(crate) fn has(&self, access: &Access) -> bool
        ensures { IsTrue result → IsRecent self.now access.now }
    {
        match self.slots.get(self.place_of(access)) {
            Some(slot) => slot.has(access) && self.since <= slot.step,
            None => false,
        }
    }

    /// Notes an access, the step of this index.
    pub(crate) fn note(&mut self, access: &Access, step: u64)
        ensures noted { (slot : Told) → Contains self.new.slots.items slot
            → IsSlotOf self.old.slots.items self.old.since access.now step slot }
        ensures since { self.new.since ≡ self.old.since }
    {
        self.make_room();
        self.noted = self.noted.saturating_add(1);
        let place = self.place_of(access);
        if place < self.slots.len() {
            self.slots[place] = self.slots[place].taken_by(access, step, self.since);
        }
    }

    /// Only the accesses of this step and later ones count.
    pub(crate) fn forget_before(&mut self, step: u64)
        ensures since { self.new.since ≡ step }
        ensures slots { self.new.slots.items ≡ self.old.slots.items }
    {
        self.since = step;
        self.most = self.most.max(self.noted);
        self.noted = 0;
        self.calls = self.calls.saturating_add(1);
        if self.calls >= CALLS {
            self.use_fewer();
        }
    }

    /// Uses a quarter of the slots if few accesses were noted in them.
    fn use_fewer(&mut self)
        ensures since { self.new.since ≡ self.old.since }
        ensures slots { self.new.slots.items ≡ self.old.slots.items }
    {
        if self.mask >= FEWEST_SLOTS && self.most < self.mask / 8 {
            self.mask /= 4;
        }
        self.most = 0;
        self.calls = 0;
    }

    /// Uses four times as many slots once as many accesses were noted as are used. It does nothing if there are enough, or no memory
    /// for more.
    fn make_room(&mut self)
        ensures noted { (slot : Told) → Contains self.new.slots.items slot → (slot.step ≡ 0) ⊎ Contains self.old.slots.items slot }
        ensures since { self.new.since ≡ self.old.since }
    {
        if self.noted <= self.mask || self.mask >= MOST_SLOTS - 1 {
            return;
        }
        let count = self
            .mask
            .saturating_mul(4)
            .saturating_add(4)
            .clamp(FEWEST_SLOTS, MOST_SLOTS);
        if count <= self.slots.len() {
            self.mask = count - 1;
            return;
        }
        match vec![in self.alloc; RecentAccess::new(); count] {
            Ok(slots) => {
                self.slots = slots;
                self.mask = count - 1;
            }
            Err(_) => self.noted = 0,
        }
    }

    /// The slot of an access.
    #[inline(always)]
    fn place_of(&self, access: &Access) -> usize {
        let spread = (access.site.pc / 4).wrapping_mul(SPREAD);
        access.word.wrapping_add(spread) as usize & self.mask
    }
}
