//! An access that is kept of a word of a page, with the way to the next one.
ghost use Rattle.races.specs.Linked.{IsCleared};

use crate::byte_set::ByteSet;
use crate::latest::Latest;

/// An access that is kept of a word of a page.
#[derive(Clone, Copy)]
pub(crate) struct KeptAccess {
    /// The access.
    pub(crate) latest: Latest,
    /// The word's place on the page.
    pub(crate) place: u32,
    /// The number of the word's next entry, or 0 if this is the last one.
    pub(crate) next: u32,
}

impl KeptAccess {
    /// It without these bytes. One without any byte keeps its place.
    pub(crate) fn without(self, bytes: ByteSet) -> Self
        ensures { IsCleared bytes self result }
    {
        KeptAccess {
            latest: Latest {
                site: self.latest.site,
                bytes: self.latest.bytes.without(bytes),
                step: self.latest.step,
            },
            place: self.place,
            next: self.next,
        }
    }
}
