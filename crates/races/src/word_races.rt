//! The races found at a word.
ghost use Rattle.std.specs.Prelude.{◌≡◌, ℕ, ◌<◌, [], IfSome, OnOk, length, slice_index_or};
ghost use Rattle.races.specs.Races.{IsSamePair};
ghost use Rattle.races.specs.Words.{IsNoted};
ghost use Rattle.races.specs.declared.found_race.FoundRace.{FoundRace as Race};

use crate::found_race::FoundRace;
use crate::site::Site;
use std::alloc::{AllocError, Global};

/// The races found at a word.
#[derive(Drop)]
pub(crate) struct WordRaces {
    /// One for each two instructions.
    pub(crate) found: Vec<FoundRace>,
}

impl WordRaces {
    /// No race.
    pub(crate) fn new(alloc: Global) -> Self
        ensures { result.found.items ≡ [] }
    {
        WordRaces {
            found: Vec::new(alloc),
        }
    }

    /// Notes a race: its bytes at the race of its instructions, if there is one, else itself.
    pub(crate) fn note(&mut self, race: FoundRace) -> Result<(), AllocError>
        ensures { OnOk result (IsNoted self.old.found.items self.new.found.items race) }
    {
        note(&mut self.found, race)
    }
}

/// Notes a race among others.
fn note(found: &mut Vec<FoundRace>, race: FoundRace) -> Result<(), AllocError>
    ensures { OnOk result (IsNoted found.old.items found.new.items race) }
{
    match find_pair(found, race.first, race.second) {
        Some(index) => {
            let mut known = found[index];
            known.bytes = known.bytes.joined(race.bytes);
            found[index] = known;
        }
        None => found.push(race)?,
    }
    Ok(())
}

/// The first race of two instructions.
fn find_pair(found: &[FoundRace], first: Site, second: Site) -> Option<usize>
    ensures within { IfSome result (λ index. index < length found.now) }
    ensures pair { IfSome result (λ index. (d : Race) →
        IsSamePair (slice_index_or found.now index d).first (slice_index_or found.now index d).second first second) }
{
    for (index, known) in found.iter().enumerate() {
        if known.is_pair(first, second) {
            return Some(index);
        }
    }
    None
}
