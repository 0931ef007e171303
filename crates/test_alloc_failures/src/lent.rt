//! What a run by written events lends, copied for a comparison.
use crate::picture::Picture;
use hart::Hart;
use schedule_core::World;
use std::alloc::{AllocError, Global};
use token::{RunOutcome, Turn};
use twins::View;

/// A copy of all that a world of two workers lends.
#[derive(Drop)]
pub struct Lent {
    turns: Vec<Turn>,
    outcome: Option<RunOutcome>,
    /// The harts of the workers' jobs.
    first: Option<Hart>,
    second: Option<Hart>,
    /// The present memory, and those of the workers' jobs.
    memories: Picture,
}

impl Lent {
    /// The copy of a world.
    pub fn of(alloc: Global, world: &World) -> Result<Self, AllocError> {
        let memories = Picture::of(alloc, world.now())?;
        let mut lent = Lent {
            turns: Vec::new(alloc),
            outcome: world.outcome(),
            first: hart_of(world.private(0)),
            second: hart_of(world.private(1)),
            memories,
        };
        lent.push(world)?;
        Ok(lent)
    }

    /// Adds the turns and the memories of the workers' jobs.
    fn push(&mut self, world: &World) -> Result<(), AllocError> {
        self.turns.extend_from_slice(world.turns())?;
        push_memory(&mut self.memories, world.private(0))?;
        push_memory(&mut self.memories, world.private(1))
    }

    /// Whether a world lends the same.
    pub fn is_of(&self, alloc: Global, world: &World) -> Result<bool, AllocError> {
        let other = Lent::of(alloc, world)?;
        Ok(self.is_same(&other))
    }

    /// Whether it is the copy of what another is the copy of.
    fn is_same(&self, other: &Lent) -> bool {
        self.turns.as_slice() == other.turns.as_slice()
            && self.outcome == other.outcome
            && self.first == other.first
            && self.second == other.second
            && self.memories.is_same(&other.memories)
    }
}

/// The hart of what a world lends of a job, none where it lends none.
fn hart_of(lent: Option<(&Hart, &View)>) -> Option<Hart> {
    match lent {
        Some((hart, _)) => Some(*hart),
        None => None,
    }
}

/// Adds the memory of what a world lends of a job, where it lends one.
fn push_memory(memories: &mut Picture, lent: Option<(&Hart, &View)>) -> Result<(), AllocError> {
    match lent {
        Some((_, view)) => memories.push_memory(view),
        None => Ok(()),
    }
}
