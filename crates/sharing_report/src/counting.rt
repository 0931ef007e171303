//! Counts of distinct keys, and of keys that several marks share, by sorting.
ghost use Rattle.std.specs.Prelude.{◌≡◌, IfOk};
ghost use Rattle.std.specs.Set.{distinct_count};
ghost use Rattle.sharing_report.specs.Contested.{contested_count, contested_neighbours};

use crate::mark::Mark;
use std::alloc::{AllocError, Global};

/// How many different keys there are.
pub(crate) fn count_distinct<K: Ord + Copy>(mut keys: Vec<K>) -> u64
    ensures { result ≡ distinct_count K.eq keys.items }
{
    keys.sort_unstable();
    keys.dedup();
    keys.len() as u64
}

/// How many places there are at which at least two threads have a mark.
pub(crate) fn count_contested<K: Ord + Copy>(
    alloc: Global,
    mut marks: Vec<Mark<K>>,
) -> Result<u64, AllocError>
    ensures { IfOk result (λ count. count ≡ contested_count K.eq marks.items) }
{
    marks.sort_by_key(|mark| mark.place)?;
    Ok(count_distinct(neighbours(alloc, &marks)?))
}

/// The place of each mark whose predecessor has the same place and another thread.
#[tactic(auto, unfolding(crate::specs::Contested::contested_neighbours))]
fn neighbours<K: Ord + Copy>(alloc: Global, marks: &[Mark<K>]) -> Result<Vec<K>, AllocError>
    ensures { IfOk result (λ places. places.items ≡ contested_neighbours K.eq marks.now) }
{
    marks
        .iter()
        .zip(marks.iter().skip(1))
        .filter(|(before, mark)| before.place == mark.place && before.thread != mark.thread)
        .map(|(_, mark)| mark.place)
        .collect(alloc)
}
