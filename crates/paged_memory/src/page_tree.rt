//! A tree of shared pages, four levels deep. Clones share it whole.
ghost use Rattle.std.specs.Prelude.{◌≡◌, ◌^◌, ◌<◌, None, IfOk, option_map};
ghost use Rattle.std.specs.Arc.{arc_value};

use crate::level::{Change, Level};
use crate::node::Node;
use crate::page::Page;
use std::alloc::{AllocError, Global};
use std::sync::Arc;

/// A table of pages. Its clones share the pages and the table itself. What is shared is copied before it is
/// changed: at most a page and the nodes on the way to it, however many pages are mapped.
#[derive(Drop)]
pub(crate) struct PageTree {
    root: Option<Arc<Node<Node<Node<Node<Page>>>>>>,
    alloc: Global,
}

#[tactic(auto, unfolding(crate::specs::PageTree::pages_of))]
impl PageTree {
    ghost use Rattle.paged_memory.specs.PageMap.{memory_of_pages, ChangesPage};
    ghost use Rattle.paged_memory.specs.PageTree.{pages_of};

    /// No page mapped.
    pub(crate) fn empty(alloc: Global) -> Self
        ensures { memory_of_pages (pages_of result) ≡ (λ _. None) }
    {
        PageTree { root: None, alloc }
    }

    /// The allocator that made it.
    pub(crate) fn allocator(&self) -> Global {
        self.alloc
    }

    /// The same pages.
    pub(crate) fn try_clone(&self) -> Result<Self, AllocError>
        ensures { IfOk result (λ copy. pages_of copy ≡ pages_of self.now) }
    {
        let root = match &self.root {
            Some(root) => Some(Arc::try_clone(root)?),
            None => None,
        };
        Ok(PageTree {
            root,
            alloc: self.alloc,
        })
    }

    /// The page of a number below 2^20, or `None` where it isn't mapped.
    #[inline(always)]
    pub(crate) fn page(&self, number: u32) -> Option<&Arc<Page>>
        requires { number < 2 ^ 20 }
        ensures { option_map (λ page. arc_value page.now) result ≡ pages_of self.now number }
    {
        match &self.root {
            Some(root) => Node::page(root, number),
            None => None,
        }
    }

    /// Changes the page of a number.
    pub(crate) fn change<C: Change>(&mut self, number: u32, change: C) -> Result<(), AllocError>
        requires { number < 2 ^ 20 }
        ensures { ChangesPage (pages_of self.old) number (C.makes change) (pages_of self.new) result }
    {
        Node::change(&mut self.root, self.alloc, number, change)
    }
}
