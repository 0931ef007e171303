//! The patch of a view: the bytes in which it differs from its base.
ghost use Rattle.std.specs.Prelude.{◌≡◌, length, IfOk};
ghost use Rattle.std.specs.Coded.{coded_ℕ};
ghost use Rattle.std.specs.FinMap as maps;
ghost use Rattle.std.specs.List.Sorted.{IsStrictlyIncreasing};
ghost use Rattle.commit.specs.ByteMap.{ByteMap, byte_map};
ghost use Rattle.commit.specs.Changed.{addresses_of};
ghost use Rattle.commit.specs.Patched.{patched, numbers_of};

use crate::changed_page::ChangedPage;
use crate::changed_pages::ChangedPages;
use std::alloc::{AllocError, Global};
use std::marker::Model;
use twins::View;

/// What a thread changed of its memory: the bytes that differ from those that it found. It has the pages of
/// these bytes alone.
#[derive(Drop)]
pub struct Patch {
    pages: ChangedPages,
}

impl Model for Patch {
    ghost Value = { ByteMap };

    ghost coded = { maps.code coded_ℕ coded_ℕ };

    ghost view = { λ p. byte_map (patched p.pages) };
}

impl Patch {
    ghost use Rattle.commit.specs.Merge.{changes};
    ghost use Rattle.twins.specs.View as views;
    ghost use Rattle.paged_memory.specs.Snapshot as snapshots;

    /// What a view changed: the bytes that differ from its base's, with the view's bytes.
    pub fn of(alloc: Global, view: &View) -> Result<Self, AllocError>
        ensures { IfOk result (λ patch. patch ≡ changes (snapshots.cells_of (views.base_of view.now)) (views.cells_of view.now)) }
    {
        let mut pages = ChangedPages::new(alloc);
        let dirty = view.dirty()?;
        for number in &dirty {
            pages.compare(alloc, view, *number)?;
        }
        Ok(Patch { pages })
    }

    /// The changed pages, ascending.
    pub(crate) fn pages(&self) -> &[ChangedPage]
        ensures pages { byte_map (patched result.now) ≡ self.now }
        ensures ascending { IsStrictlyIncreasing (numbers_of result.now) }
    {
        self.pages.as_slice()
    }
}

/// How many addresses a patch has: those where the bytes that the thread left differ from those that it found.
pub fn changed(patch: &Patch) -> u64
    ensures { result ≡ length (addresses_of patch.now) }
{
    patch.pages.count()
}

/// The addresses of a patch, ascending: those where the bytes that the thread left differ from those that it
/// found.
pub fn changed_addresses(alloc: Global, patch: &Patch) -> Result<Vec<u32>, AllocError>
    ensures { IfOk result (λ addresses. addresses.items ≡ addresses_of patch.now) }
{
    let mut addresses = Vec::new(alloc);
    for page in patch.pages() {
        page.push_addresses(&mut addresses)?;
    }
    Ok(addresses)
}
