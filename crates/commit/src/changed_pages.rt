//! The changed pages of a patch, ascending by number.
ghost use Rattle.std.specs.Prelude.{◌≡◌, List, [], length, OnOk};
ghost use Rattle.std.specs.Arc.{arc_value};
ghost use Rattle.std.specs.List.Sorted.{IsStrictlyIncreasing};
ghost use Rattle.paged_memory.specs.Page.{PageValue};
ghost use Rattle.commit.specs.Patched.{PageChange, page_change, byte_of_change, patched, addresses_with, numbers_of, MayFollow, Adds, AreCounted};

use crate::changed_page::ChangedPage;
use crate::kernels::compare_page;
use paged_memory::{Page, PageMemory};
use std::alloc::{AllocError, Global};
use std::marker::Model;
use std::sync::Arc;
use twins::View;

/// The pages of which a thread changed at least one byte, and how many bytes differ on them.
#[derive(Drop)]
pub(crate) struct ChangedPages {
    /// The changed pages, ascending.
    pages: Vec<ChangedPage>,
    /// How many bytes differ.
    count: u64,
}

impl Model for ChangedPages {
    ghost Value = { List PageChange };

    ghost view = { λ p. p.pages.items };

    ghost invariant = { λ p. AreCounted p.pages.items p.count };
}

impl ChangedPages {
    ghost use Rattle.commit.specs.Merge.{change_at};
    ghost use Rattle.twins.specs.View as views;
    ghost use Rattle.paged_memory.specs.Snapshot as snapshots;

    /// No page.
    pub(crate) fn new(alloc: Global) -> Self
        ensures { result ≡ [] }
    {
        ChangedPages {
            pages: Vec::new(alloc),
            count: 0,
        }
    }

    /// Adds the bytes of a view's page that differ from its base's. The page's number is above those that are
    /// there.
    pub(crate) fn compare(
        &mut self,
        alloc: Global,
        view: &View,
        number: u32,
    ) -> Result<(), AllocError>
        requires { MayFollow self.old number }
        ensures { OnOk result (Adds self.old number
            (change_at (snapshots.cells_of (views.base_of view.now)) (views.cells_of view.now)) self.new) }
    {
        let Some(copy) = view.base().page(number) else {
            return Ok(());
        };
        let Some(mine) = view.find_page(number) else {
            return Ok(());
        };
        self.add(alloc, number, copy, mine)?;
        Ok(())
    }

    /// Adds the bytes of a page that differ. The page's number is above those that are there.
    fn add(
        &mut self,
        alloc: Global,
        number: u32,
        copy: &Arc<Page>,
        mine: &Page,
    ) -> Result<(), AllocError>
        requires { MayFollow self.old number }
        ensures { OnOk result (Adds self.old number (byte_of_change (page_change number (arc_value copy.now) mine.now)) self.new) }
    {
        let found = compare_page(copy.bytes(), mine.bytes());
        if found.count > 0 {
            let page = ChangedPage::new(alloc, number, copy, mine, found)?;
            self.pages.push(page)?;
            self.count += u64::from(found.count);
        }
        Ok(())
    }

    /// The pages, ascending.
    pub(crate) fn as_slice(&self) -> &[ChangedPage]
        ensures pages { result.now ≡ self.now }
        ensures ascending { IsStrictlyIncreasing (numbers_of self.now) }
    {
        &self.pages
    }

    /// How many bytes differ on them.
    pub(crate) fn count(&self) -> u64
        ensures { result ≡ length (addresses_with (patched self.now)) }
    {
        self.count
    }
}
