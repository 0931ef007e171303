//! A race found at a word.
ghost use Rattle.std.specs.Prelude.{◌↔◌, IsTrue};
ghost use Rattle.races.specs.Races.{IsSamePair};

use crate::byte_set::ByteSet;
use crate::site::Site;

/// A race found at a word.
#[derive(Clone, Copy)]
pub(crate) struct FoundRace {
    /// The bytes at which its instructions race.
    pub(crate) bytes: ByteSet,
    /// The earlier access of the first that was found.
    pub(crate) first: Site,
    /// The later one.
    pub(crate) second: Site,
    /// The later one's step.
    pub(crate) step: u64,
}

impl FoundRace {
    /// Whether it is of these two instructions, in any order.
    pub(crate) fn is_pair(&self, first: Site, second: Site) -> bool
        ensures { IsTrue result ↔ IsSamePair self.now.first self.now.second first second }
    {
        (self.first.is_same(first) && self.second.is_same(second))
            || (self.first.is_same(second) && self.second.is_same(first))
    }
}
