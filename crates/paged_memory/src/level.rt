//! The levels of a page tree, and what a change does to one.
ghost use Rattle.std.specs.Prelude.{◌≡◌, ◌<◌, ℕ, Bool, Option, option_map, OnOk, OnErr};
ghost use Rattle.std.specs.Arc.{arc_value};
ghost use Rattle.paged_memory.specs.Page.{PageValue};
ghost use Rattle.paged_memory.specs.PageTable.{pages_of_entry, changed_where};

use crate::page::Page;
use std::alloc::{AllocError, Global};
use std::sync::Arc;

/// What is done to the page of a number.
pub(crate) trait Change: Drop {
    /// What it makes of the page, or of none.
    ghost makes: { Self → Option PageValue → Option PageValue };

    /// Does it. When memory runs out the page stays.
    fn make(self, alloc: Global, page: &mut Option<Arc<Page>>) -> Result<(), AllocError>
        ensures made { OnOk result (option_map arc_value page.new ≡ makes self (option_map arc_value page.old)) }
        ensures kept { OnErr result (option_map arc_value page.new ≡ option_map arc_value page.old) };
}

/// What the entries of a node hold: a node of the level below or, on the lowest level, a page.
pub(crate) trait Level: Drop {
    /// The pages that it has.
    ghost pages: { Self → ℕ → Option PageValue };

    /// Which entry of the node above a page number names.
    ghost digit: { ℕ → ℕ };

    /// Whether two page numbers name one page in it.
    ghost agree: { ℕ → ℕ → Bool };

    /// Which entry of the node above a page number names.
    fn index(number: u32) -> usize
        ensures digit { result ≡ digit number }
        ensures below { result < 32 };

    /// The page of a number, or `None` where it has none.
    fn page(this: &Arc<Self>, number: u32) -> Option<&Arc<Page>>
        ensures { option_map (λ page. arc_value page.now) result ≡ pages (arc_value this.now) number };

    /// Changes the page of a number in an entry. What others share is copied first.
    fn change<C: Change>(
        entry: &mut Option<Arc<Self>>,
        alloc: Global,
        number: u32,
        change: C,
    ) -> Result<(), AllocError>
        ensures changed { OnOk result ((other : ℕ) →
            pages_of_entry pages entry.new other ≡ changed_where (agree number) (C.makes change) (pages_of_entry pages entry.old) other) }
        ensures kept { OnErr result ((other : ℕ) → pages_of_entry pages entry.new other ≡ pages_of_entry pages entry.old other) };
}

impl Level for Page {
    ghost use Rattle.std.specs.Prelude.{◌%◌, true, Some};

    ghost pages = { λ page _. Some page };

    ghost digit = { λ number. number % 32 };

    ghost agree = { λ _ _. true };

    #[inline(always)]
    fn index(number: u32) -> usize {
        (number % 32) as usize
    }

    #[inline(always)]
    fn page(this: &Arc<Self>, _number: u32) -> Option<&Arc<Page>> {
        Some(this)
    }

    fn change<C: Change>(
        entry: &mut Option<Arc<Self>>,
        alloc: Global,
        _number: u32,
        change: C,
    ) -> Result<(), AllocError> {
        change.make(alloc, entry)
    }
}
