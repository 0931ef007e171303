//! Which watch looks for a load or a store.
ghost use Rattle.std.specs.Prelude.{◌≡◌};
ghost use Rattle.timeline.specs.Calls as calls;
ghost use Rattle.timeline.specs.Halts as halts;

use hart::MemoryAccess;
use marked_memory::Watch;

/// The place of the first watch that looks for an access, none if none does.
pub(crate) fn place_of(access: &MemoryAccess, watches: &[Watch]) -> Option<usize>
    ensures { result ≡ halts.first_place (halts.is_seen access.now) watches.now }
{
    for place in 0..watches.len() {
        if is_seen(access, &watches[place]) {
            return Some(place);
        }
    }
    None
}

/// A store of so many bytes.
pub(crate) fn stored(address: u32, width: u32) -> MemoryAccess
    ensures { result ≡ calls.stored address width }
{
    MemoryAccess {
        address,
        width,
        is_store: true,
    }
}

/// Whether a watch looks for an access.
pub(crate) fn is_seen(access: &MemoryAccess, watch: &Watch) -> bool
    ensures { result ≡ halts.is_seen access.now watch.now }
{
    let is_kind = if access.is_store {
        watch.looks_for_stores()
    } else {
        watch.looks_for_loads()
    };
    is_kind && touches(access, watch)
}

/// Whether an access touches a byte of a watched range.
fn touches(access: &MemoryAccess, watch: &Watch) -> bool
    ensures { result ≡ halts.touches access.now watch.now }
{
    let (start, first) = (u64::from(watch.start), u64::from(access.address));
    0 < access.width
        && 0 < watch.len
        && start < first + u64::from(access.width)
        && first < start + u64::from(watch.len)
}
