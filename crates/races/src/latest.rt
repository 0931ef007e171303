//! An access of a word that is kept.
ghost use Rattle.std.specs.Prelude.{◌↔◌, IsTrue};
ghost use Rattle.races.specs.Clocks.{time_of};
ghost use Rattle.races.specs.Words.{IsAlike, IsHit};

use crate::byte_set::ByteSet;
use crate::clocks::Clocks;
use crate::site::{Access, Site};

/// The latest access of these bytes of a word by a thread's instruction.
#[derive(Clone, Copy)]
pub(crate) struct Latest {
    /// Who it is.
    pub(crate) site: Site,
    /// The bytes, but for those that have begun a new life since.
    pub(crate) bytes: ByteSet,
    /// The step.
    pub(crate) step: u64,
}

impl Latest {
    /// Whether it races with an access of now: another thread's, one of both a store, one of both not atomic, and not in the past of
    /// the other.
    #[inline(always)]
    pub(crate) fn is_hit(&self, access: &Access, clocks: &Clocks) -> bool
        ensures { IsTrue result ↔ IsHit (time_of clocks.now.threads.clocks.items access.now.site.thread) self.now access.now }
    {
        let own = self.site.thread;
        let other = access.site.thread;
        own != other
            && (self.site.is_store || access.site.is_store)
            && !(self.site.is_atomic && access.site.is_atomic)
            && clocks.time(other, own) <= self.step
    }

    /// Whether it is of these bytes by this instruction of the thread.
    #[inline(always)]
    pub(crate) fn is_alike(&self, site: Site, bytes: ByteSet) -> bool
        ensures { IsTrue result → IsAlike self.now site bytes }
    {
        site.is_same(self.site) && site.thread == self.site.thread && bytes.is_same(self.bytes)
    }
}
