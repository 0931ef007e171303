//! The race of an access with one that is kept of its word.
ghost use Rattle.std.specs.Prelude.{◌≡◌, ℕ, List, [], ◌∷◌, ◌++◌, Contains, OnOk, length};
ghost use Rattle.races.specs.Steps.{Step};
ghost use Rattle.races.specs.Words.{IsFinding, KnowsLatest, StaysElsewhere, Times, found_at};
ghost use Rattle.races.specs.declared.latest.Latest.{Latest as Past};

use crate::clocks::Clocks;
use crate::found_race::FoundRace;
use crate::latest::Latest;
use crate::race_map::RaceMap;
use crate::site::Access;
use std::alloc::AllocError;

/// Notes the race of an access, the step of this index, with one of before, if they race.
#[inline(always)]
pub(crate) fn find_race(
    races: &mut RaceMap,
    past: &Latest,
    access: &Access,
    step: u64,
    clocks: &Clocks,
) -> Result<(), AllocError>
    ensures own { OnOk result ((steps : List Step) (latest done : List Past)
        → KnowsLatest steps access.now.word latest → Contains latest past.now → Times steps clocks.now → step ≡ length steps
        → IsFinding steps access.now clocks.now done (found_at races.old.words access.now.word)
        → IsFinding steps access.now clocks.now (done ++ past.now ∷ []) (found_at races.new.words access.now.word)) }
    ensures others { OnOk result (StaysElsewhere (found_at races.old.words) access.now.word (found_at races.new.words)) }
{
    if !past.is_hit(access, clocks) {
        return Ok(());
    }
    let bytes = past.bytes.common(access.bytes);
    if bytes.is_empty() {
        return Ok(());
    }
    let race = FoundRace {
        bytes,
        first: past.site,
        second: access.site,
        step,
    };
    races.note(access.word, race)
}
