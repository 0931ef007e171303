//! Accesses of ranges of addresses, word by word.
ghost use Rattle.std.specs.Prelude.{◌≡◌, ◌+◌, ◌/◌, ◌<◌, ◌^◌, IfOk, OnOk, map};
ghost use Rattle.observed_run.specs.Events as spec;

use races::{Access, ObservedEvent, Site};
use std::alloc::{AllocError, Global};

/// The accesses of so many bytes from an address on, one for each word.
#[tactic(auto, unfolding(crate::specs::Events::accesses_upto))]
pub(crate) fn accesses(
    alloc: Global,
    site: Site,
    address: u32,
    length: u32,
) -> Result<Vec<ObservedEvent>, AllocError>
    ensures { IfOk result (λ events. events.items ≡ spec.accesses site address length) }
{
    let mut events = Vec::new(alloc);
    let first = address / 4;
    for step in 0..word_count(address, length) {
        let word = first.wrapping_add(step);
        events.push(ObservedEvent::Access(Access::of_range(site, word, address, length)))?;
    }
    Ok(events)
}

/// How many words have one of so many bytes from an address on.
fn word_count(address: u32, length: u32) -> u32
    ensures { result ≡ spec.word_count address length }
{
    ((u64::from(address) % 4 + u64::from(length) + 3) / 4) as u32
}
