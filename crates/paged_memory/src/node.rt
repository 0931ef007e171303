//! A node of a page tree: 32 shared children. A change copies the nodes that others share.
ghost use Rattle.std.specs.Prelude.{◌≡◌, ◌/◌, ◌==◌, ◌&&◌, ℕ, None, OnOk, OnErr, length, slice_index_or};
ghost use Rattle.std.specs.Arc.{arc_value};
ghost use Rattle.paged_memory.specs.PageTable.{pages_of_entry, pages_of_node, changed_where, agree_below};

use crate::level::{Change, Level};
use crate::page::Page;
use std::alloc::{AllocError, Global};
use std::sync::Arc;

/// How many entries a node has.
const ENTRIES: usize = 32;

/// A node of a table of pages. An entry is empty where none of its page numbers is mapped.
#[derive(Drop)]
pub(crate) struct Node<T: Drop> {
    entries: [Option<Arc<T>>; ENTRIES],
    ghost full: { length entries ≡ 32 },
}

impl<T: Level> Node<T> {
    /// All entries empty.
    fn empty() -> Self
        ensures entries { (index : ℕ) → slice_index_or result.entries index None ≡ None }
        ensures pages { (number : ℕ) → pages_of_node T.pages T.digit result.entries number ≡ None }
    {
        Node {
            entries: Default::default(),
        }
    }

    /// Gives an empty node the children of another one. Both share them.
    fn share_children(&mut self, other: &Self) -> Result<(), AllocError>
        requires { (index : ℕ) → slice_index_or self.old.entries index None ≡ None }
        ensures { OnOk result ((number : ℕ) →
            pages_of_node T.pages T.digit self.new.entries number ≡ pages_of_node T.pages T.digit other.now.entries number) }
    {
        for index in 0..ENTRIES {
            if let Some(child) = &other.entries[index] {
                self.entries[index] = Some(Arc::try_clone(child)?);
            }
        }
        Ok(())
    }

    /// Changes the page of a number in a node that others share: a copy takes its place.
    #[inline(never)]
    fn change_copy<C: Change>(
        shared: &mut Arc<Self>,
        alloc: Global,
        number: u32,
        change: C,
    ) -> Result<(), AllocError>
        ensures changed { OnOk result ((other : ℕ) → pages_of_node T.pages T.digit (arc_value shared.new).entries other ≡
            changed_where (agree_below T.digit T.agree number) (C.makes change)
            (pages_of_node T.pages T.digit (arc_value shared.old).entries) other) }
        ensures kept { OnErr result (shared.new ≡ shared.old) }
    {
        let mut node = Node::empty();
        node.share_children(shared)?;
        node.change_own(alloc, number, change)?;
        *shared = Arc::new(alloc, node)?;
        Ok(())
    }

    /// Changes the page of a number where no page is mapped near it: a new node gets it.
    #[inline(never)]
    fn change_new<C: Change>(
        entry: &mut Option<Arc<Self>>,
        alloc: Global,
        number: u32,
        change: C,
    ) -> Result<(), AllocError>
        requires { entry.old ≡ None }
        ensures changed { OnOk result ((other : ℕ) → pages_of_entry (λ node. pages_of_node T.pages T.digit node.entries) entry.new other ≡
            changed_where (agree_below T.digit T.agree number) (C.makes change) (λ _. None) other) }
        ensures kept { OnErr result (entry.new ≡ entry.old) }
    {
        let mut node = Node::empty();
        node.change_own(alloc, number, change)?;
        *entry = Some(Arc::new(alloc, node)?);
        Ok(())
    }

    /// Changes the page of a number.
    fn change_own<C: Change>(
        &mut self,
        alloc: Global,
        number: u32,
        change: C,
    ) -> Result<(), AllocError>
        ensures changed { OnOk result ((other : ℕ) → pages_of_node T.pages T.digit self.new.entries other ≡
            changed_where (agree_below T.digit T.agree number) (C.makes change) (pages_of_node T.pages T.digit self.old.entries) other) }
        ensures kept { OnErr result ((other : ℕ) →
            pages_of_node T.pages T.digit self.new.entries other ≡ pages_of_node T.pages T.digit self.old.entries other) }
    {
        T::change(&mut self.entries[T::index(number)], alloc, number, change)
    }
}

impl<T: Level> Level for Node<T> {
    ghost pages = { λ node. pages_of_node T.pages T.digit node.entries };

    ghost digit = { λ number. T.digit (number / 32) };

    ghost agree = { λ number other. (T.digit number == T.digit other) && T.agree number other };

    #[inline(always)]
    fn index(number: u32) -> usize {
        T::index(number / 32)
    }

    #[inline(always)]
    fn page(this: &Arc<Self>, number: u32) -> Option<&Arc<Page>> {
        match &this.entries[T::index(number)] {
            Some(child) => T::page(child, number),
            None => None,
        }
    }

    fn change<C: Change>(
        entry: &mut Option<Arc<Self>>,
        alloc: Global,
        number: u32,
        change: C,
    ) -> Result<(), AllocError> {
        match entry {
            Some(shared) => match Arc::get_mut(shared) {
                Some(node) => node.change_own(alloc, number, change),
                None => Self::change_copy(shared, alloc, number, change),
            },
            None => Self::change_new(entry, alloc, number, change),
        }
    }
}
