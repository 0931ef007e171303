//! An access that was told lately.
ghost use Rattle.std.specs.Prelude.{◌≡◌, IsTrue, Contains, List};
ghost use Rattle.races.specs.Recent.{IsSlotOf, IsWithin};
ghost use Rattle.races.specs.Steps.{IsSameInTurn};
ghost use Rattle.races.specs.declared.recent_access.RecentAccess.{RecentAccess as Told};

use crate::byte_set::ByteSet;
use crate::site::{Access, Site};

/// An access that was told lately, with its step, and the bytes of the word that the same instruction accessed before in the same turn.
/// Step 0 stands for none.
#[derive(Clone, Copy)]
pub(crate) struct RecentAccess {
    /// The access, with all these bytes.
    pub(crate) access: Access,
    /// The step.
    pub(crate) step: u64,
}

impl RecentAccess {
    /// No access.
    pub(crate) fn new() -> Self
        ensures { result.step ≡ 0 }
    {
        RecentAccess {
            access: Access {
                site: Site {
                    turn: 0,
                    instruction: 0,
                    pc: 0,
                    thread: 0,
                    is_store: false,
                    is_atomic: false,
                },
                word: 0,
                bytes: ByteSet {
                    first: false,
                    second: false,
                    third: false,
                    fourth: false,
                },
            },
            step: 0,
        }
    }

    /// Whether it is of the word of an access, by the same instruction of the thread in the same turn.
    #[inline(always)]
    fn is_alike(&self, access: &Access) -> bool
        ensures word { IsTrue result → self.now.access.word ≡ access.now.word }
        ensures site { IsTrue result → IsSameInTurn self.now.access.site access.now.site }
    {
        self.access.word == access.word && self.access.site.is_same_in_turn(access.site)
    }

    /// Whether it is of the word and the instruction of an access, in its turn, with just its bytes.
    #[inline(always)]
    pub(crate) fn is_of(&self, access: &Access) -> bool
        ensures { IsTrue result → IsWithin access.now self.now.access }
    {
        self.is_alike(access) && self.access.bytes.is_same(access.bytes)
    }

    /// Whether it is of the word and the instruction of an access, in its turn, and has its bytes.
    pub(crate) fn has(&self, access: &Access) -> bool
        ensures { IsTrue result → IsWithin access.now self.now.access }
    {
        self.is_alike(access) && access.bytes.is_within(self.access.bytes)
    }

    /// The slot once an access is noted in it, the step of this index. The bytes that it has are kept if they are of the same instruction in
    /// the same turn, and if their step counts: from this one on.
    pub(crate) fn taken_by(self, access: &Access, step: u64, since: u64) -> RecentAccess
        ensures { (slots : List Told) → Contains slots self → IsSlotOf slots since access.now step result }
    {
        let mut bytes = access.bytes;
        if since <= self.step && self.is_alike(access) {
            bytes = bytes.joined(self.access.bytes);
        }
        RecentAccess {
            access: Access {
                site: access.site,
                word: access.word,
                bytes,
            },
            step,
        }
    }
}
