//! An access of dead bytes.
ghost use Rattle.std.specs.Prelude.{◌↔◌, IsTrue};
ghost use Rattle.races.specs.Freed.{Tells};

use crate::byte_set::ByteSet;
use crate::freed_block::FreedBlock;
use crate::site::{Access, Site};

/// The first access of dead bytes of a word by a thread's instruction, of those that died by the same place in the program.
#[derive(Clone, Copy, Debug, PartialEq, Eq)]
pub struct FreedAccess {
    /// Who loads or stores them.
    pub site: Site,
    /// The word's number: the address of its first byte, divided by four.
    pub word: u32,
    /// Which of the word's bytes: those of the access that died with the block.
    pub bytes: ByteSet,
    /// The block that they died with.
    pub block: FreedBlock,
}

impl FreedAccess {
    ghost use Rattle.std.specs.Prelude.{◌≡◌};
    ghost use Rattle.races.specs.FreedTexts.{address_of};
    ghost use Rattle.races.specs.Texts.{size_of};

    /// The address of the lowest of its bytes.
    pub fn address(&self) -> u32
        ensures { result ≡ address_of self.now }
    {
        ((u64::from(self.word) * 4 + u64::from(self.bytes.lowest())) % (1 << 32)) as u32
    }

    /// How many bytes it has.
    pub fn size(&self) -> u8
        ensures { result ≡ size_of self.now.bytes }
    {
        let bytes = self.bytes;
        u8::from(bytes.first)
            + u8::from(bytes.second)
            + u8::from(bytes.third)
            + u8::from(bytes.fourth)
    }

    /// Whether it tells of an access of a block's bytes: by the same instruction of the thread, at the same word, of a block that died by
    /// the same place.
    pub(crate) fn tells(&self, access: &Access, block: &FreedBlock) -> bool
        ensures { IsTrue result ↔ Tells self.now access.now block.now }
    {
        self.word == access.word
            && self.site.thread == access.site.thread
            && self.site.is_same(access.site)
            && self.block.is_same_place(block)
    }
}
