//! Patches, and their commit.
use crate::answer::{Answer, first_of, mixed};
use crate::failed::Failed;
use crate::picture::Picture;
use crate::retry::again;
use crate::snapshots::{Change, changed as changed_snapshot};
use crate::views::view_with_stores;
use commit::{Patch, changed, changed_addresses};
use std::alloc::Global;
use twins::View;

/// The patch of a view.
pub fn patch_of(alloc: Global) -> Result<Answer, Failed> {
    let patch = patch_of_stores(alloc)?;
    let addresses = answer_of(alloc, &patch)?;
    Ok(Answer {
        count: changed(&patch),
        value: 0,
        digest: addresses.digest,
    })
}

/// The addresses of a patch.
pub fn addresses(alloc: Global) -> Result<Answer, Failed> {
    let patch = patch_of_stores(alloc)?;
    answer_of(alloc, &patch)
}

/// What the addresses of a patch are.
fn answer_of(alloc: Global, patch: &Patch) -> Result<Answer, Failed> {
    let addresses = addresses_of(alloc, patch)?;
    Ok(Answer {
        count: addresses.len() as u64,
        value: first_of(&addresses),
        digest: digest_of_addresses(&addresses),
    })
}

/// The commit of a patch of three pages to a snapshot whose pages a clone shares.
pub fn commit(alloc: Global) -> Result<Answer, Failed> {
    let patch = patch_of_stores(alloc)?;
    changed_snapshot(alloc, &[Change::Apply(&patch)])
}

/// The patch of a view that three pages of were stored to.
fn patch_of_stores(alloc: Global) -> Result<Patch, Failed> {
    let view = view_with_stores(alloc)?;
    patch_of_view(alloc, &view)
}

/// The patch of a view.
fn patch_of_view(alloc: Global, view: &View) -> Result<Patch, Failed> {
    let before = Picture::of(alloc, view)?;
    again!(Patch::of(alloc, view), before.is_of(alloc, view)?)
}

/// The addresses of a patch that has seven.
fn addresses_of(alloc: Global, patch: &Patch) -> Result<Vec<u32>, Failed> {
    again!(changed_addresses(alloc, patch), changed(patch) == 7)
}

/// A digest of addresses.
fn digest_of_addresses(addresses: &[u32]) -> u64 {
    let mut digest = 0;
    for address in addresses {
        digest = mixed(digest, u64::from(*address));
    }
    digest
}
