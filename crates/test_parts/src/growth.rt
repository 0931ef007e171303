//! Changes for which a snapshot takes memory. Where that is refused (`rt try --fail-alloc N`), the snapshot stays as it was, and the
//! change is made when it is asked for again.

use crate::answer::Answer;
use crate::numbers::numbers_of;
use crate::perms::perm_of;
use guest_memory::{GuestMemory, Perm};
use paged_memory::Snapshot;
use std::alloc::AllocError;
use test_guest_rows::split;

/// How many pages there are.
const PAGES: u32 = 0x0010_0000;

/// Changes for which a snapshot takes memory.
#[derive(Clone, Copy)]
pub enum Growth {
    /// Pages of zeros, from a first one on.
    Map { first: u32, count: u32, perm: Perm },
    /// Pages taken away, from a first one on.
    Unmap { first: u32, count: u32 },
    /// The byte at an address.
    Store { address: u32, byte: u8 },
}

impl Growth {
    /// The change of a line, without the snapshot's name.
    pub fn of_line(verb: &str, text: &str) -> Self {
        let (perm, rest) = if verb == "map" {
            split(text)
        } else {
            ("", text)
        };
        let [first, second, _, _, _, _] = numbers_of(rest);
        match verb {
            "map" => Growth::Map {
                first,
                count: second,
                perm: perm_of(perm),
            },
            "unmap" => Growth::Unmap {
                first,
                count: second,
            },
            _ => Growth::Store {
                address: first,
                byte: (second % 256) as u8,
            },
        }
    }

    /// Makes the change, and answers whether it was made. One past the last page isn't.
    fn is_made(self, snapshot: &mut Snapshot) -> bool {
        match self {
            Growth::Map { first, count, perm } => {
                if first > PAGES || count > PAGES - first {
                    return false;
                }
                snapshot.map_zero(first, count, perm).is_ok()
            }
            Growth::Unmap { first, count } => {
                if first > PAGES || count > PAGES - first {
                    return false;
                }
                snapshot.unmap(first, count).is_ok()
            }
            Growth::Store { address, byte } => snapshot.store8(address, byte).is_ok(),
        }
    }
}

/// Makes a change, once more if it is refused. Writes if that changed something at these places, or if it is refused again.
pub fn grow(
    answer: &mut Answer,
    snapshot: &mut Snapshot,
    growth: Growth,
    places: &[u32],
) -> Result<(), AllocError> {
    let before = snapshot.try_clone()?;
    if growth.is_made(snapshot) {
        return Ok(());
    }
    if !places
        .iter()
        .all(|place| is_same(&before, snapshot, *place))
    {
        answer.word("a refused change changed the memory");
    }
    if !growth.is_made(snapshot) {
        answer.word("refused twice");
    }
    Ok(())
}

/// Whether two snapshots have the same byte at an address, and the same permissions.
fn is_same(one: &Snapshot, other: &Snapshot, address: u32) -> bool {
    one.byte(address) == other.byte(address) && one.perm(address) == other.perm(address)
}
