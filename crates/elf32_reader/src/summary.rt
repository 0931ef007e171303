//! What is kept of the segments looked at so far: their last page, their pages, and whether the entry's page is executable.
ghost use Rattle.std.specs.Prelude.{◌≡◌, ℕ, ◌+◌, ◌<◌, ◌≤◌, ◌^◌, List};
ghost use Rattle.guest_memory.specs.Layout.{image_end};
ghost use Rattle.elf32_reader.specs.LoadImage.{LoadImage};
ghost use Rattle.elf32_reader.specs.Refusals.{Tests, image_refusals};

use crate::fault::ElfFault;
use crate::program_header::ProgramHeader;
use guest_memory::layout::{IMAGE_PAGES, PAGE_SIZE};

/// What is kept of segments that are looked at, before any is copied.
#[derive(Clone, Copy)]
pub(crate) struct Summary {
    /// The last page of the last segment.
    pub(crate) last_page: Option<u32>,
    /// The pages of all segments.
    pub(crate) pages: u32,
    /// Whether the page of the entry is executable.
    pub(crate) entry_is_executable: bool,
}

impl Summary {
    /// The summary of no segments.
    pub(crate) const NONE: Summary = Summary {
        last_page: None,
        pages: 0,
        entry_is_executable: false,
    };

    ghost use Rattle.elf32_reader.specs.Segments.{segment_of};
    ghost use Rattle.elf32_reader.specs.Summaries.{summary_of, with_segment};

    /// The summary with the segment of a program header added.
    pub(crate) fn with(self, header: &ProgramHeader, entry: u32) -> Summary
        requires not_empty { 0 < header.now.p_memsz }
        requires below { header.now.p_vaddr + header.now.p_memsz ≤ image_end }
        requires few { self.pages < 2 ^ 31 }
        ensures { (file : List ℕ) → result ≡ with_segment entry self (segment_of file header.now) }
    {
        let first = header.first_page();
        let last = header.last_page();
        let page = entry / PAGE_SIZE;
        Summary {
            last_page: Some(last),
            pages: self.pages + (last + 1 - first),
            entry_is_executable: self.entry_is_executable
                || (first <= page && page <= last && header.perm().execute),
        }
    }

    /// Tests the image that has this entry and the segments that were looked at.
    #[tactic(auto, unfolding(crate::specs::Refusals::first_applying, crate::specs::Refusals::image_refusals, crate::specs::Summaries::summary_of))]
    pub(crate) fn test(&self, entry: u32) -> Result<(), ElfFault>
        ensures { (image : LoadImage) → entry ≡ image.entry →
            self.now ≡ summary_of image.entry image.segments → Tests result (image_refusals image) }
    {
        if self.pages > IMAGE_PAGES {
            Err(ElfFault::TooManyPages)
        } else if entry % 4 != 0 || !self.entry_is_executable {
            Err(ElfFault::BadEntry)
        } else {
            Ok(())
        }
    }
}
