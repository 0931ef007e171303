//! The calls of a snapshot.
use crate::answer::Answer;
use crate::failed::Failed;
use crate::picture::{Picture, answer_with};
use crate::programs::image_of;
use crate::retry::again;
use crate::stores::Store;
use commit::{Patch, apply};
use data_guest_programs::{DATA, QUOTIENTS};
use elf32_reader::Image;
use guest_memory::layout::{HEAP_START, PAGE_SIZE};
use guest_memory::{GuestMemory, Perm, StoreFault};
use paged_memory::Snapshot;
use std::alloc::Global;

/// The first of the pages that are mapped. They lie in two nodes of the table.
pub const FIRST_PAGE: u32 = HEAP_START / PAGE_SIZE + 108;

/// What pages permit that are only read.
const READ_ONLY: Perm = Perm {
    read: true,
    write: false,
    execute: false,
};

/// How many are mapped.
pub const MAPPED_PAGES: u32 = 40;

/// Stores of each width to pages that a clone shares.
pub const STORES: [Change<'static>; 3] = [
    Change::Store(Store::Word(DATA, 0x0403_0201)),
    Change::Store(Store::Half(FIRST_PAGE * PAGE_SIZE + 2, 0x0605)),
    Change::Store(Store::Byte((FIRST_PAGE + 30) * PAGE_SIZE + 5, 7)),
];

/// A call that changes a snapshot.
#[derive(Drop)]
pub enum Change<'a> {
    /// Maps pages of zeros over a part of those that are mapped, and beyond them.
    MapZero,
    /// Takes pages of both nodes away.
    Unmap,
    /// Stores to it.
    Store(Store),
    /// Applies a patch.
    Apply(&'a Patch),
}

impl Change<'_> {
    /// Makes the call.
    fn make(&self, snapshot: &mut Snapshot) -> Result<(), StoreFault> {
        let made = match self {
            Change::MapZero => snapshot.map_zero(FIRST_PAGE - 9, 30, READ_ONLY),
            Change::Unmap => snapshot.unmap(FIRST_PAGE + 10, 20),
            Change::Apply(patch) => apply(snapshot, patch),
            Change::Store(store) => return store.make(snapshot),
        };
        match made {
            Ok(()) => Ok(()),
            Err(error) => Err(StoreFault::OutOfMemory(error)),
        }
    }
}

/// A snapshot and a clone that shares its pages.
#[derive(Drop)]
struct Pair {
    snapshot: Snapshot,
    clone: Snapshot,
    /// Both, as they were when the clone was made.
    before: Picture,
}

impl Pair {
    /// A snapshot with pages of zeros in the heap, and its clone.
    fn open(alloc: Global) -> Result<Self, Failed> {
        let snapshot = snapshot_with_heap(alloc)?;
        let before = Picture::of(alloc, &snapshot)?;
        let clone = clone_of(alloc, &snapshot, &before)?;
        Ok(Pair {
            snapshot,
            clone,
            before,
        })
    }

    /// Changes the snapshot. The clone has to be as it was.
    fn change(&mut self, alloc: Global, changes: &[Change<'_>]) -> Result<Answer, Failed> {
        change_in_turn(alloc, &mut self.snapshot, changes)?;
        answer_beside(alloc, &self.snapshot, &self.clone, &self.before)
    }
}

/// The memory of a program, with pages of zeros in the heap.
pub fn snapshot_with_heap(alloc: Global) -> Result<Snapshot, Failed> {
    let mut snapshot = snapshot_of_program(alloc)?;
    snapshot.map_zero(FIRST_PAGE, MAPPED_PAGES, Perm::READ_WRITE)?;
    Ok(snapshot)
}

/// The memory of a program.
fn snapshot_of_program(alloc: Global) -> Result<Snapshot, Failed> {
    let image = image_of(alloc, &QUOTIENTS)?;
    snapshot_of(alloc, &image)
}

/// The memory of an image.
fn snapshot_of(alloc: Global, image: &Image) -> Result<Snapshot, Failed> {
    again!(Snapshot::of_image(alloc, image))
}

/// A clone of a snapshot that is as in a picture.
fn clone_of(alloc: Global, snapshot: &Snapshot, before: &Picture) -> Result<Snapshot, Failed> {
    again!(snapshot.try_clone(), before.is_of(alloc, snapshot)?)
}

/// What a snapshot is in the end. The clone that shares its pages has to be as it was.
fn answer_beside(
    alloc: Global,
    snapshot: &Snapshot,
    clone: &Snapshot,
    before: &Picture,
) -> Result<Answer, Failed> {
    if before.is_of(alloc, clone)? {
        answer_of(alloc, snapshot)
    } else {
        Err(Failed::Changed)
    }
}

/// What a snapshot is.
fn answer_of(alloc: Global, snapshot: &Snapshot) -> Result<Answer, Failed> {
    answer_with(alloc, snapshot, snapshot.load32(DATA).unwrap_or(0))
}

/// The memory of a loaded program.
pub fn of_image(alloc: Global) -> Result<Answer, Failed> {
    let snapshot = snapshot_of_program(alloc)?;
    answer_of(alloc, &snapshot)
}

/// A clone of a snapshot.
pub fn try_clone(alloc: Global) -> Result<Answer, Failed> {
    let pair = Pair::open(alloc)?;
    answer_beside(alloc, &pair.clone, &pair.snapshot, &pair.before)
}

/// Changes of a snapshot whose pages a clone shares.
pub fn changed(alloc: Global, changes: &[Change<'_>]) -> Result<Answer, Failed> {
    let mut pair = Pair::open(alloc)?;
    pair.change(alloc, changes)
}

/// Changes, one after another.
fn change_in_turn(
    alloc: Global,
    snapshot: &mut Snapshot,
    changes: &[Change<'_>],
) -> Result<(), Failed> {
    for change in changes {
        change_once(alloc, snapshot, change)?;
    }
    Ok(())
}

/// A change.
fn change_once(alloc: Global, snapshot: &mut Snapshot, change: &Change<'_>) -> Result<(), Failed> {
    let before = Picture::of(alloc, snapshot)?;
    again!(change.make(snapshot), before.is_of(alloc, snapshot)?)
}
