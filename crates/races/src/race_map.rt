//! The races found at all words.
ghost use Rattle.std.specs.Prelude.{◌≡◌, ℕ, [], ◌++◌, IfOk, None, OnOk, map};
ghost use Rattle.std.specs.Ordering.{nat_cmp};
ghost use Rattle.std.specs.BTreeMap.{IsOrdered, get};
ghost use Rattle.races.specs.Words.{IsNoted, StaysElsewhere, found_at, told_at, told_of};

use crate::found_race::FoundRace;
use crate::ordered_race::OrderedRace;
use crate::race::Race;
use crate::word_races::WordRaces;
use std::alloc::{AllocError, Global};
use std::collections::BTreeMap;

/// The words at which races were found, each by its number.
#[derive(Drop)]
pub(crate) struct RaceMap {
    alloc: Global,
    words: BTreeMap<u32, WordRaces>,
}

impl RaceMap {
    /// No race.
    pub(crate) fn new(alloc: Global) -> Self
        ensures { (word : ℕ) → found_at result.words word ≡ [] }
    {
        RaceMap {
            alloc,
            words: BTreeMap::new(alloc),
        }
    }

    /// Notes a race at a word.
    #[cold]
    #[inline(never)]
    pub(crate) fn note(&mut self, word: u32, race: FoundRace) -> Result<(), AllocError>
        ensures noted { OnOk result (IsNoted (found_at self.old.words word) (found_at self.new.words word) race) }
        ensures others { OnOk result (StaysElsewhere (found_at self.old.words) word (found_at self.new.words)) }
    {
        match self.words.get_mut(&word) {
            Some(races) => races.note(race),
            None => self.begin(word, race),
        }
    }

    /// Notes the first race at a word.
    fn begin(&mut self, word: u32, race: FoundRace) -> Result<(), AllocError>
        ensures noted { get nat_cmp self.old.words word ≡ None → OnOk result (IsNoted [] (found_at self.new.words word) race) }
        ensures others { OnOk result (StaysElsewhere (found_at self.old.words) word (found_at self.new.words)) }
    {
        let mut races = WordRaces::new(self.alloc);
        races.note(race)?;
        self.words.insert(word, races)?;
        Ok(())
    }

    /// The races found.
    pub(crate) fn told(&self) -> Result<Vec<OrderedRace>, AllocError>
        ensures told { IfOk result (λ told. told.items ≡ told_of self.now.words.entries) }
        ensures ordered { IsOrdered nat_cmp self.now.words }
    {
        let mut told = Vec::with_capacity(self.alloc, self.words.len())?;
        for (number, races) in &self.words {
            push_told(&mut told, *number, &races.found)?;
        }
        Ok(told)
    }
}

/// Appends the races found at a word.
fn push_told(told: &mut Vec<OrderedRace>, word: u32, found: &[FoundRace]) -> Result<(), AllocError>
    ensures { OnOk result (told.new.items ≡ told.old.items ++ map (told_at word) found.now) }
{
    for race in found {
        told.push(OrderedRace {
            race: Race {
                word,
                bytes: race.bytes,
                first: race.first,
                second: race.second,
            },
            step: race.step,
        })?;
    }
    Ok(())
}
