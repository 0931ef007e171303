//! What is kept of all words: the accesses and the races.
ghost use Rattle.std.specs.Prelude.{◌≡◌, ℕ, List, [], ◌∷◌, ◌++◌, IfOk, OnOk, length};
ghost use Rattle.std.specs.Ordering.{nat_cmp};
ghost use Rattle.std.specs.BTreeMap.{IsOrdered};
ghost use Rattle.races.specs.Steps.{Step};
ghost use Rattle.races.specs.Steps.Step.{Touch, Renew};
ghost use Rattle.races.specs.Words.{KnowsFound, KnowsWords, StaysElsewhere, Times, found_at, latest_at, told_of};

use crate::clocks::Clocks;
use crate::fresh::Fresh;
use crate::latest::Latest;
use crate::ordered_race::OrderedRace;
use crate::pages::{Pages, place_of};
use crate::race_map::RaceMap;
use crate::site::Access;
use std::alloc::{AllocError, Global};

/// What is kept of each word.
#[derive(Drop)]
pub(crate) struct Words {
    pages: Pages,
    races: RaceMap,
}

impl Words {
    /// No access.
    pub(crate) fn new(alloc: Global) -> Self
        ensures { KnowsWords [] result.pages.pages.items result.races.words }
    {
        Words {
            pages: Pages::new(alloc),
            races: RaceMap::new(alloc),
        }
    }

    /// An access, the step of this index.
    pub(crate) fn touch(
        &mut self,
        access: &Access,
        step: u64,
        clocks: &Clocks,
    ) -> Result<(), AllocError>
        ensures { OnOk result ((steps : List Step)
            → KnowsWords steps self.old.pages.pages.items self.old.races.words → Times steps clocks.now → step ≡ length steps
            → KnowsWords (steps ++ Touch access.now ∷ []) self.new.pages.pages.items self.new.races.words) }
    {
        self.find(access, step, clocks)?;
        let own = Latest {
            site: access.site,
            bytes: access.bytes,
            step,
        };
        self.pages.keep(access.word, own)
    }

    /// Notes the races of an access, the step of this index.
    fn find(&mut self, access: &Access, step: u64, clocks: &Clocks) -> Result<(), AllocError>
        ensures own { OnOk result ((steps : List Step)
            → KnowsWords steps self.old.pages.pages.items self.old.races.words → Times steps clocks.now → step ≡ length steps
            → KnowsFound (steps ++ Touch access.now ∷ []) access.now.word (found_at self.new.races.words access.now.word)) }
        ensures others { OnOk result (StaysElsewhere (found_at self.old.races.words) access.now.word (found_at self.new.races.words)) }
        ensures pages { self.new.pages ≡ self.old.pages }
    {
        match self.pages.page(access.word) {
            Some(page) => {
                page.find_races(place_of(access.word), &mut self.races, access, step, clocks)
            }
            None => Ok(()),
        }
    }

    /// Bytes begin a new life.
    pub(crate) fn renew(&mut self, fresh: Fresh)
        ensures { (steps : List Step) → KnowsWords steps self.old.pages.pages.items self.old.races.words
            → KnowsWords (steps ++ Renew fresh.address fresh.length ∷ []) self.new.pages.pages.items self.new.races.words }
    {
        self.pages.renew(fresh);
    }

    /// The races found.
    pub(crate) fn told(&self) -> Result<Vec<OrderedRace>, AllocError>
        ensures told { IfOk result (λ told. told.items ≡ told_of self.now.races.words.entries) }
        ensures ordered { IsOrdered nat_cmp self.now.races.words }
    {
        self.races.told()
    }
}
