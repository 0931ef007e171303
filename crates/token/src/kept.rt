//! The recorder that keeps turns and changes as lists.
ghost use Rattle.std.specs.Prelude.{◌≡◌, ◌<◌, ◌++◌, [], ◌∷◌, vec_len};
ghost use Rattle.std.specs.Vec.{vec_capacity};

use crate::recorder::Recorder;
use crate::turn::Turn;
use crate::turn_change::TurnChange;
use crate::turn_fault::TurnFault;
use commit::{Patch, changed_addresses};
use std::alloc::Global;
use std::mem;

/// Keeps the turns and what each changed as lists.
#[derive(Drop)]
pub struct Kept {
    alloc: Global,
    turns: Vec<Turn>,
    changes: Vec<TurnChange>,
    /// What the turn changed that it is prepared for.
    addresses: Vec<u32>,
}

#[tactic(auto, unfolding(crate::specs::Kept::kept_turns, crate::specs::Kept::kept_changes))]
impl Kept {
    ghost use Rattle.token.specs.Kept.{kept_turns, kept_changes};

    /// The lists without a turn.
    pub fn new(alloc: Global) -> Self
        ensures turns { kept_turns result ≡ [] }
        ensures changes { kept_changes result ≡ [] }
    {
        Kept {
            alloc,
            turns: Vec::new(alloc),
            changes: Vec::new(alloc),
            addresses: Vec::new(alloc),
        }
    }

    /// The turns, the first one first.
    pub fn turns(&self) -> &[Turn]
        ensures { result.now ≡ kept_turns self.now }
    {
        &self.turns
    }

    /// What each turn changed, in the order of the turns.
    pub fn changes(&self) -> &[TurnChange]
        ensures { result.now ≡ kept_changes self.now }
    {
        &self.changes
    }

    /// The turns, the first one first.
    pub fn into_turns(self) -> Vec<Turn>
        ensures { result.items ≡ kept_turns self }
    {
        self.turns
    }
}

#[tactic(auto, unfolding(crate::specs::Kept::kept_turns, crate::specs::Kept::kept_changes))]
impl Recorder for Kept {
    ghost use Rattle.token.specs.Kept.{Keeps, HasRoomFor};

    ghost records = { Keeps };

    ghost is_ready = { HasRoomFor };

    ghost writes = { ⊥ };

    fn prepare(&mut self, patch: Option<&Patch>) -> Result<(), TurnFault> {
        self.addresses = match patch {
            Some(patch) => changed_addresses(self.alloc, patch)?,
            None => Vec::new(self.alloc),
        };
        self.turns.reserve(1)?;
        self.changes.reserve(1)?;
        Ok(())
    }

    fn record(&mut self, turn: Turn) {
        let addresses = mem::replace(&mut self.addresses, Vec::new(self.alloc));
        let change = TurnChange::new(turn.phase, turn.thread, addresses);
        push_within(&mut self.changes, change);
        push_within(&mut self.turns, turn);
    }
}

/// Pushes where there is room.
fn push_within<T: Drop>(list: &mut Vec<T>, item: T)
    requires { vec_len list.old < vec_capacity list.old }
    ensures { list.new.items ≡ list.old.items ++ item ∷ [] }
{
    let pushed = list.push(item);
    let _ = pushed;
}
