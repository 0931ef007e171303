//! The first stores to the pages of a view.
use crate::answer::{Answer, first_of};
use crate::failed::Failed;
use crate::picture::{Picture, look_same};
use crate::retry::again;
use crate::snapshots::{FIRST_PAGE, snapshot_with_heap};
use crate::stores::Store;
use data_guest_programs::DATA;
use guest_memory::GuestMemory;
use guest_memory::layout::PAGE_SIZE;
use std::alloc::Global;
use twins::View;

/// Stores of each width to three pages, each with how many pages were stored to before it.
const FIRST_STORES: [(usize, Store); 3] = [
    (0, Store::Word(DATA + 8, 0x0403_0201)),
    (1, Store::Half(FIRST_PAGE * PAGE_SIZE + 2, 0x0605)),
    (2, Store::Byte((FIRST_PAGE + 30) * PAGE_SIZE + 5, 7)),
];

/// A view with three pages stored to, one store refused where one is.
pub fn view_with_stores(alloc: Global) -> Result<View, Failed> {
    let mut view = View::open(snapshot_with_heap(alloc)?);
    store_in_turn(alloc, &mut view)?;
    Ok(view)
}

/// The stores, one after another.
fn store_in_turn(alloc: Global, view: &mut View) -> Result<(), Failed> {
    for (private, store) in &FIRST_STORES {
        store_once(alloc, view, *private, store)?;
    }
    Ok(())
}

/// A page's first store, with so many pages stored to before it.
fn store_once(alloc: Global, view: &mut View, private: usize, store: &Store) -> Result<(), Failed> {
    let before = Picture::of(alloc, view)?;
    again!(
        store.make(view),
        before.is_of(alloc, view)? && view.private_pages().len() == private
    )
}

/// First stores of each width. The base has to be as it was.
pub fn store(alloc: Global) -> Result<Answer, Failed> {
    let view = view_with_stores(alloc)?;
    answer_over_base(alloc, &view)
}

/// What a view is, whose base has to be as it was.
fn answer_over_base(alloc: Global, view: &View) -> Result<Answer, Failed> {
    if has_base(alloc, view)? {
        answer_of(alloc, view)
    } else {
        Err(Failed::Changed)
    }
}

/// Whether a view's base is as it was.
fn has_base(alloc: Global, view: &View) -> Result<bool, Failed> {
    let base = snapshot_with_heap(alloc)?;
    Ok(look_same(alloc, &base, view.base())?)
}

/// What a view is, and how many of its pages were stored to.
fn answer_of(alloc: Global, view: &View) -> Result<Answer, Failed> {
    let picture = Picture::of(alloc, view)?;
    Ok(Answer {
        count: view.private_pages().len() as u64,
        value: view.load32(DATA + 8).unwrap_or(0),
        digest: picture.digest(),
    })
}

/// The numbers of the pages that were stored to.
pub fn dirty(alloc: Global) -> Result<Answer, Failed> {
    let view = view_with_stores(alloc)?;
    answer_of_dirty(alloc, &view)
}

/// The numbers of the pages that were stored to in a view.
fn answer_of_dirty(alloc: Global, view: &View) -> Result<Answer, Failed> {
    let before = Picture::of(alloc, view)?;
    let numbers = dirty_in(alloc, view, &before)?;
    Ok(Answer {
        count: numbers.len() as u64,
        value: first_of(&numbers),
        digest: before.digest(),
    })
}

/// The numbers of the pages that were stored to in a view that is as in a picture.
fn dirty_in(alloc: Global, view: &View, before: &Picture) -> Result<Vec<u32>, Failed> {
    again!(view.dirty(), before.is_of(alloc, view)?)
}
