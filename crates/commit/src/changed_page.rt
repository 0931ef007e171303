//! One changed page of a patch, and its merge into a snapshot.
ghost use Rattle.std.specs.Prelude.{◌≡◌, ◌^◌, ◌<◌, [], ◌∷◌, ◌++◌, length, IfOk, OnOk, OnErr};
ghost use Rattle.std.specs.Arc.{arc_value};
ghost use Rattle.guest_memory.specs.Layout.{page_size};
ghost use Rattle.paged_memory.specs.Page.{PageValue};
ghost use Rattle.commit.specs.Groups.{IsComparison};
ghost use Rattle.commit.specs.Mine.{bytes_left};
ghost use Rattle.commit.specs.Pages.{merged_page, AreWhole};
ghost use Rattle.commit.specs.Patched.{PageChange, page_change};

use crate::comparison::Comparison;
use crate::kernels::{count_page, merge_page, push_differing};
use crate::mine::Mine;
use guest_memory::layout::PAGE_SIZE;
use paged_memory::{Page, Snapshot};
use std::alloc::{AllocError, Global};
use std::marker::Model;
use std::sync::Arc;

/// A page of which a thread changed at least one byte.
#[derive(Drop)]
pub(crate) struct ChangedPage {
    number: u32,
    /// The page as the thread found it.
    copy: Arc<Page>,
    /// How the thread left it.
    mine: Mine,
}

impl Model for ChangedPage {
    ghost Value = { PageChange };

    ghost view = { λ p. record { number = p.number; copy = (arc_value p.copy).bytes; mine = bytes_left (arc_value p.copy).bytes p.mine } };

    ghost invariant = { λ p. p.number < 2 ^ 20 };
}

impl ChangedPage {
    ghost use Rattle.commit.specs.Merge.{with_bytes};
    ghost use Rattle.commit.specs.Patched.{patched, addresses_in};
    ghost use Rattle.paged_memory.specs.Snapshot.{cells_of, pages_of};

    /// A page as a thread found it and as it left it.
    pub(crate) fn new(
        alloc: Global,
        number: u32,
        copy: &Arc<Page>,
        mine: &Page,
        found: Comparison,
    ) -> Result<Self, AllocError>
        requires number { number < 2 ^ 20 }
        requires found { IsComparison (arc_value copy.now).bytes mine.now.bytes found }
        ensures { IfOk result (λ page. page ≡ page_change number (arc_value copy.now) mine.now) }
    {
        let mine = Mine::of(alloc, copy, mine, found)?;
        Ok(ChangedPage {
            number,
            copy: Arc::try_clone(copy)?,
            mine,
        })
    }

    /// Merges it into the page of its number, where that is mapped. The pages stay when memory runs out.
    pub(crate) fn merge_into(&self, snapshot: &mut Snapshot) -> Result<(), AllocError>
        ensures merged { OnOk result (cells_of snapshot.new ≡ with_bytes (patched (self.now ∷ [])) (cells_of snapshot.old)) }
        ensures kept { OnErr result (pages_of snapshot.new ≡ pages_of snapshot.old) }
    {
        let Some(page) = snapshot.page(self.number) else {
            return Ok(());
        };
        match &self.mine {
            Mine::Group(group) => {
                let merged = group.merged(page.bytes(), self.copy.bytes());
                snapshot.write_part(self.number, group.at(), &merged)
            }
            Mine::Page(mine) => {
                let merged = merged(snapshot.allocator(), page, &self.copy, mine)?;
                snapshot.replace(self.number, merged)
            }
        }
    }

    /// Pushes the addresses of its bytes that differ, ascending.
    pub(crate) fn push_addresses(&self, addresses: &mut Vec<u32>) -> Result<(), AllocError>
        ensures pushed { OnOk result (addresses.new.items ≡ addresses.old.items ++ addresses_in self.now) }
        ensures number { self.now.number < 2 ^ 20 }
        ensures copy { length self.now.copy ≡ page_size }
        ensures mine { length self.now.mine ≡ page_size }
    {
        let first = self.number * PAGE_SIZE;
        match &self.mine {
            Mine::Group(group) => group.push_differing(addresses, first, self.copy.bytes()),
            Mine::Page(mine) => push_differing(addresses, first, self.copy.bytes(), mine.bytes()),
        }
    }
}

/// What a thread's page makes of the present page. Where nobody else changed the page, that is the thread's page,
/// which is shared then.
fn merged(alloc: Global, now: &Page, copy: &Page, mine: &Arc<Page>) -> Result<Arc<Page>, AllocError>
    ensures merged { IfOk result (λ page. arc_value page ≡ merged_page now.now copy.now (arc_value mine.now)) }
    ensures whole { AreWhole now.now copy.now (arc_value mine.now) }
{
    if count_page(now.bytes(), copy.bytes()) == 0 && now.perm() == mine.perm() {
        return Arc::try_clone(mine);
    }
    merged_copy(alloc, now, copy, mine)
}

/// The present page with what a thread's page changes, as a page of its own.
#[inline(never)]
fn merged_copy(alloc: Global, now: &Page, copy: &Page, mine: &Page) -> Result<Arc<Page>, AllocError>
    ensures merged { IfOk result (λ page. arc_value page ≡ merged_page now.now copy.now mine.now) }
    ensures whole { AreWhole now.now copy.now mine.now }
{
    let mut bytes = *now.bytes();
    merge_page(&mut bytes, copy.bytes(), mine.bytes());
    let merged = Arc::new(alloc, Page::new(now.perm(), bytes))?;
    Ok(merged)
}
