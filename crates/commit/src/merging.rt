//! The commit: a patch is merged into a snapshot, byte by byte. If memory runs out, the snapshot keeps its pages.
ghost use Rattle.std.specs.Prelude.{◌≡◌, OnOk, OnErr};
ghost use Rattle.commit.specs.Merge.{with_changes};
ghost use Rattle.paged_memory.specs.Snapshot.{cells_of, pages_of};

use crate::patch::Patch;
use paged_memory::Snapshot;
use std::alloc::AllocError;

/// Merges a patch into a snapshot: each byte of the patch that the snapshot maps becomes the patch's, and all
/// else stays. It looks at the pages of the patch alone. The pages stay when memory runs out.
pub fn apply(snapshot: &mut Snapshot, patch: &Patch) -> Result<(), AllocError>
    ensures merged { OnOk result (cells_of snapshot.new ≡ with_changes patch.now (cells_of snapshot.old)) }
    ensures kept { OnErr result (pages_of snapshot.new ≡ pages_of snapshot.old) }
{
    match patch.pages() {
        [] => Ok(()),
        [page] => page.merge_into(snapshot),
        _ => apply_beside(snapshot, patch),
    }
}

/// Merges a patch into a clone of a snapshot, which then takes its place.
fn apply_beside(snapshot: &mut Snapshot, patch: &Patch) -> Result<(), AllocError>
    ensures merged { OnOk result (cells_of snapshot.new ≡ with_changes patch.now (cells_of snapshot.old)) }
    ensures kept { OnErr result (snapshot.new ≡ snapshot.old) }
{
    let mut merged = snapshot.try_clone()?;
    for page in patch.pages() {
        page.merge_into(&mut merged)?;
    }
    *snapshot = merged;
    Ok(())
}
