//! Which place each page number has, found by index alone.
ghost use Rattle.std.specs.Prelude.{◌≡◌, ◌^◌, ◌<◌, ◌++◌, OnOk, OnErr, length, replicate};
ghost use Rattle.twins.specs.Places.{HaveLeaves};

use std::alloc::{AllocError, Global};

/// How many groups there are, and how many page numbers a group has.
const GROUPS: usize = 1024;

const LEAF: usize = 1024;

/// A place for some of the page numbers. The numbers come in groups; a group has a leaf once one of its
/// numbers has a place. A new table takes no memory.
#[derive(Drop)]
pub(crate) struct PlaceTable {
    /// For each group which leaf it has, counted from 1; 0 where it has none.
    groups: [u16; GROUPS],
    /// The leaves side by side: for each number of the group its place, counted from 1; 0 where it has none.
    leaves: Vec<u32>,
    ghost shape: { HaveLeaves groups leaves.items },
}

#[tactic(auto, using(crate::proofs::Places::places))]
impl PlaceTable {
    ghost use Rattle.std.specs.Prelude.{◌≡◌, ◌≢◌, ◌+◌, ◌^◌, ◌<◌, ℕ, OnOk};
    ghost use Rattle.twins.specs.Places.{has_leaf, AnswersPlace};
    ghost use Rattle.twins.specs.PlaceTable.{place_of};

    /// No number has a place.
    pub(crate) fn new(alloc: Global) -> Self
        ensures { (number : ℕ) → place_of result number ≡ 0 }
    {
        PlaceTable {
            groups: [0; GROUPS],
            leaves: Vec::new(alloc),
        }
    }

    /// The place of a page number.
    #[inline(always)]
    pub(crate) fn place(&self, number: u32) -> Option<usize>
        requires { number < 2 ^ 20 }
        ensures { AnswersPlace result (place_of self.now number) }
    {
        let leaf = usize::from(self.groups[number as usize / LEAF]);
        if leaf == 0 {
            return None;
        }
        match self.leaves[(leaf - 1) * LEAF + number as usize % LEAF] {
            0 => None,
            place => Some(place as usize - 1),
        }
    }

    /// Makes room for the place of a page number.
    pub(crate) fn reserve(&mut self, number: u32) -> Result<(), AllocError>
        requires { number < 2 ^ 20 }
        ensures same { (other : ℕ) → place_of self.new other ≡ place_of self.old other }
        ensures room { OnOk result (has_leaf self.new.groups number) }
    {
        let group = number as usize / LEAF;
        if self.groups[group] == 0 {
            let leaf = self.leaves.len() / LEAF + 1;
            push_zeros(&mut self.leaves)?;
            self.groups[group] = leaf as u16;
        }
        Ok(())
    }

    /// Gives a page number a place.
    pub(crate) fn set(&mut self, number: u32, place: usize)
        requires number { number < 2 ^ 20 }
        requires place { place < 2 ^ 20 }
        requires room { has_leaf self.old.groups number }
        ensures set { place_of self.new number ≡ place + 1 }
        ensures others { (other : ℕ) → other ≢ number → place_of self.new other ≡ place_of self.old other }
    {
        let leaf = usize::from(self.groups[number as usize / LEAF]);
        self.leaves[(leaf - 1) * LEAF + number as usize % LEAF] = place as u32 + 1;
    }
}

/// Lengthens leaves by one of zeros.
fn push_zeros(leaves: &mut Vec<u32>) -> Result<(), AllocError>
    requires { length leaves.old.items < 2 ^ 32 }
    ensures grown { OnOk result (leaves.new.items ≡ leaves.old.items ++ replicate 1024 0) }
    ensures err { OnErr result (leaves.new.items ≡ leaves.old.items) }
{
    leaves.resize(leaves.len() + LEAF, 0)?;
    Ok(())
}
