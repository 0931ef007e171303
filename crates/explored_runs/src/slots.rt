//! What was seen of a batch of runs, by their numbers.
ghost use Rattle.std.specs.Prelude.{◌≡◌, ℕ, ◌^◌, ◌<◌, List, None, All, IfOk, slice_set, slice_index_or, vec_len};
ghost use Rattle.explored_runs.specs.Batch.{number_at};
ghost use Rattle.explored_runs.specs.Runs.{AreSlots, IsSeen};
ghost use Rattle.elf32_reader.specs.LoadImage.{LoadImage};
ghost use Rattle.shuffled_phases.specs.declared.config.Config.{Config as ConfigOf};

use crate::batch::Batch;
use crate::seen_run::SeenRun;
use std::alloc::{AllocError, Global};

/// So many slots without a run.
pub(crate) fn empty_slots(alloc: Global, count: u32) -> Result<Vec<Option<SeenRun>>, AllocError>
    ensures len { IfOk result (λ slots. vec_len slots ≡ count) }
    ensures none { IfOk result (λ slots. All (λ slot. slot ≡ None) slots.items) }
{
    let mut slots = Vec::with_capacity(alloc, count as usize)?;
    for _ in 0..count {
        slots.push(None)?;
    }
    Ok(slots)
}

/// Puts what was seen of a run into the slot of its number, if the batch has one.
pub(crate) fn put(slots: &mut [Option<SeenRun>], batch: Batch, seen: SeenRun)
    requires { number_at batch 0 < 2 ^ 32 }
    ensures { (image : LoadImage) (input : List ℕ) (config : ConfigOf) → IsSeen image input config seen
        → AreSlots image input config batch slots.old → AreSlots image input config batch slots.new }
{
    let first = batch.number(0);
    if seen.number < first {
        return;
    }
    let place = (seen.number - first) as usize;
    if place >= slots.len() {
        return;
    }
    slots[place] = Some(seen);
}

/// Takes what was seen of a run out of its slot.
pub(crate) fn take_at(slots: &mut Vec<Option<SeenRun>>, place: usize) -> Option<SeenRun>
    requires { place < vec_len slots.old }
    ensures len { vec_len slots.new ≡ vec_len slots.old }
    ensures left { slots.new.items ≡ slice_set slots.old.items place None }
    ensures taken { result ≡ slice_index_or slots.old.items place result }
{
    let slot = &mut slots[place];
    slot.take()
}
